// The text of a sheet: of a curve, of a refused card and of a refused book, written into a lent buffer of bytes.
#![tactic(auto)]

mod line;
mod rows;

ghost use Rattle.card.specs.Told.{told};
ghost use Rattle.card_list.specs.List.{name_in};
ghost use Rattle.std.specs.Prelude.{◌≡◌, length};
ghost use Rattle.sheet_text.specs.Buffer.{written_of, buffer_after};
ghost use Rattle.sheet_text.specs.Text.{accepted_text, refused_text, curve_text, book_line};

use crate::line::{ended_size, more_bytes, write_ended};
use crate::rows::{rows_size, write_rows};
use card::{Numbered, in_numbers};
use decimal::{Place, Text};
use runoff::ROW_WIDTH;

// A table of so many numbers is long enough for every card, and a buffer of so many bytes for the text of every curve of a book.
pub const ENOUGH_NUMBERS: usize = 2107;

pub const ENOUGH_BYTES: usize = 25304;

// The text of a curve of the list, counted from 0, by the reply to its card and the table afterwards: the count of its bytes; none where it does
// not fit.
pub fn curve_text<E: Numbered>(
    text: &[u8],
    list: &[i32],
    curve: u32,
    reply: Result<u32, E>,
    table: &[i32],
    buffer: &mut [u8],
) -> Option<usize>
    ensures value { result ≡ written_of (curve_text (name_in text.now list.now curve) (told E.numbered reply) table.now) (length buffer.old) }
    ensures buffer_after { buffer.new ≡ buffer_after (curve_text (name_in text.now list.now curve) (told E.numbered reply) table.now) buffer.old }
{
    let name = card_list::name_of_curve(list, curve);
    let place = name.place as usize;
    let size = name.size as usize;
    let start = place.min(text.len());
    let end = start + size.min(text.len() - start);
    // The number tells what is printed, not the case: a refusal may have the number 0, and then its text is that of 0 rows.
    let (number, count) = in_numbers(reply);
    if number == 0 {
        accepted_text(&text[start..end], count, table, buffer)
    } else {
        refused_text(&text[start..end], number, buffer)
    }
}

// Name and row count, then the rows. All is measured before the first byte is written: a buffer too short for it stays as it is.
fn accepted_text(name: &[u8], count: u32, table: &[i32], buffer: &mut [u8]) -> Option<usize>
    ensures value { result ≡ written_of (accepted_text name.now count table.now) (length buffer.old) }
    ensures buffer_after { buffer.new ≡ buffer_after (accepted_text name.now count table.now) buffer.old }
{
    let room = buffer.len();
    let (held, _) = table.as_chunks::<ROW_WIDTH>();
    let rows = &held[..held.len().min(count as usize)];
    let heading = more_bytes(name.len(), ended_size(1, count), room)?;
    let size = rows_size(rows, heading, room)?;
    let mut place = Place::start(buffer);
    place.put(name);
    write_ended(b" ", count, &mut place);
    write_rows(rows, &mut place);
    Some(size)
}

// `RAMP refused 8`
fn refused_text(name: &[u8], number: u32, buffer: &mut [u8]) -> Option<usize>
    ensures value { result ≡ written_of (refused_text name.now number) (length buffer.old) }
    ensures buffer_after { buffer.new ≡ buffer_after (refused_text name.now number) buffer.old }
{
    let size = more_bytes(name.len(), ended_size(9, number), buffer.len())?;
    let mut place = Place::start(buffer);
    place.put(name);
    write_ended(b" refused ", number, &mut place);
    Some(size)
}

// The line of a refused book, `book 24 line 2`. The number is no enum: any is printed but 0, which an accepted book has, and it has no line.
pub fn book_text(number: u32, line: u32, buffer: &mut [u8]) -> Option<usize>
    ensures value { result ≡ written_of (book_line (record { number = number; count = 0; line = line })) (length buffer.old) }
    ensures buffer_after { buffer.new ≡ buffer_after (book_line (record { number = number; count = 0; line = line })) buffer.old }
{
    if number == 0 {
        return Some(0);
    }
    let size = more_bytes(5 + number.size(), ended_size(6, line), buffer.len())?;
    let mut place = Place::start(buffer);
    place.put(b"book ".as_slice());
    place.put(number);
    write_ended(b" line ", line, &mut place);
    Some(size)
}
