// Parts of a line: how many bytes a text has with one part more, and a line's end.
ghost use Rattle.std.specs.Prelude.{◌≡◌, ◌+◌, ◌≤◌, length};
ghost use Rattle.decimal.specs.Decimal.{count_text};
ghost use Rattle.decimal.specs.Places.{HasRoom, Wrote};
ghost use Rattle.sheet_text.specs.Buffer.{sized};
ghost use Rattle.sheet_text.specs.Text.{ended_text};

use decimal::{Place, Text};

// A text of `done` bytes with `more` bytes behind it; none where it does not fit, so that no length overflows.
pub(crate) fn more_bytes(done: usize, more: usize, room: usize) -> Option<usize>
    ensures { result ≡ sized (done + more) room }
{
    let size = done.checked_add(more)?;
    (size <= room).then_some(size)
}

// How many bytes the end of a line has: a word of `word` bytes, a count, and byte 10.
pub(crate) fn ended_size(word: usize, v: u32) -> usize
    requires { word ≤ 9 }
    ensures { result ≡ word + length (count_text v) + 1 }
{
    word + v.size() + 1
}

// Writes the end of a line, a word, a count and byte 10.
pub(crate) fn write_ended(word: &[u8], v: u32, place: &mut Place)
    requires { HasRoom place.old (ended_text word.now v) }
    ensures { Wrote place.old place.new (ended_text word.now v) }
{
    place.put(word);
    place.put_ended(v, b'\n');
}
