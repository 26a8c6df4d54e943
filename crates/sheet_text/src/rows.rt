// The lines of a table's rows.
ghost use Rattle.std.specs.Prelude.{◌≡◌, ◌+◌, ◌≤◌, length};
ghost use Rattle.std.specs.List.{flat_map};
ghost use Rattle.decimal.specs.Places.{HasRoom, Wrote};
ghost use Rattle.sheet_text.specs.Buffer.{sized};
ghost use Rattle.sheet_text.specs.Text.{row_text};

use crate::line::more_bytes;
use decimal::{Place, Text};
use runoff::ROW_WIDTH;

// How many bytes the line of a row has.
fn row_size(row: &[i32; ROW_WIDTH]) -> usize
    ensures { result ≡ length (row_text row.now) }
{
    let mut size = 0;
    for v in row {
        size += v.size() + 1;
    }
    size
}

// Writes the line of a row.
fn write_row(row: &[i32; ROW_WIDTH], place: &mut Place)
    requires { HasRoom place.old (row_text row.now) }
    ensures { Wrote place.old place.new (row_text row.now) }
{
    for (i, v) in row.iter().enumerate() {
        let end = if i + 1 == row.len() { b'\n' } else { b' ' };
        place.put_ended(*v, end);
    }
}

// A text of `done` bytes with the lines of these rows behind it; none where it does not fit.
pub(crate) fn rows_size(rows: &[[i32; ROW_WIDTH]], done: usize, room: usize) -> Option<usize>
    requires { done ≤ room }
    ensures { result ≡ sized (done + length (flat_map row_text rows.now)) room }
{
    let mut size = done;
    for row in rows {
        size = more_bytes(size, row_size(row), room)?;
    }
    Some(size)
}

// Writes the lines of these rows.
pub(crate) fn write_rows(rows: &[[i32; ROW_WIDTH]], place: &mut Place)
    requires { HasRoom place.old (flat_map row_text rows.now) }
    ensures { Wrote place.old place.new (flat_map row_text rows.now) }
{
    for row in rows {
        write_row(row, place);
    }
}
