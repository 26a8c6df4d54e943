// Reads and writes a book of cards: a count line, a contents line for each curve, and a body of eight or ten numbers for each.
#![tactic(auto)]

mod curves;
mod lines;
mod list_names;
mod measure;
mod numbers;
mod reply;
mod text;
mod write;

ghost use Rattle.std.specs.Prelude.{◌≡◌, length};
ghost use Rattle.card.specs.Told.{told};
ghost use Rattle.book.specs.Book.{fault_number, told_book, reply_to_book, list_after};
ghost use Rattle.book.specs.Writing.{wrong_length, list_refusal_number, reply_to_list, buffer_after};

use crate::curves::Curves;
use crate::list_names::{any_twin, read_names};
use crate::measure::book_size;
use crate::reply::text_reply;
use crate::write::write_lines;
use card::Numbered;
use card_list::CURVE_WIDTH;

// At most 64 curves and 8192 bytes; eleven numbers a card, seven of them before the unit; a list has room for 64 curves.
pub(crate) const MOST_CURVES: u32 = 64;

pub const MOST_BYTES: usize = 8192;

pub(crate) const CARD_NUMBERS: usize = 11;

pub(crate) const FRONT_NUMBERS: usize = 7;

pub const LEAST_LIST: usize = 832;

// Room for the place, the size and the key of the name of each curve; no list to be written has more curves.
pub(crate) const PLACES: usize = 64;

// Why a book is refused; each refusal's number is document 01's.
#[derive(Clone, Copy, Debug, PartialEq, Eq)]
pub enum Fault {
    BookSize = 21,
    CountLine = 22,
    ContentsLine = 23,
    WrongLine = 24,
    TwinName = 25,
    Body = 26,
    Tail = 27,
    ShortList = 28,
}

impl Numbered for Fault {
    ghost numbered = { fault_number };

    fn number(self) -> u32 {
        self as u32
    }
}

impl Fault {
    // A book refused for it, at this line.
    pub(crate) fn at_line(self, line: u32) -> BookRefusal
        ensures { result ≡ record { fault = self; line = line } }
    {
        BookRefusal { fault: self, line }
    }
}

// A refused book: why, and the line at fault, 0 where it is no line's.
#[derive(Clone, Copy, Debug, PartialEq, Eq)]
pub struct BookRefusal {
    pub fault: Fault,
    pub line: u32,
}

// A book's answer in the paper's numbers: 0, its count of curves and line 0, or the refusal's number, 0 and its line.
pub fn in_numbers(answer: Result<u32, BookRefusal>) -> (u32, u32, u32)
    ensures number { result.0 ≡ (told_book answer).number }
    ensures count { result.1 ≡ (told_book answer).count }
    ensures line { result.2 ≡ (told_book answer).line }
{
    match answer {
        Ok(count) => (0, count, 0),
        Err(refusal) => (refusal.fault.number(), 0, refusal.line),
    }
}

// Reads a book of cards into the list, thirteen numbers a curve as C lends them, and counts the curves; a refused book leaves the list untouched.
pub fn read_book(text: &[u8], list: &mut [i32]) -> Result<u32, BookRefusal>
    ensures value { told_book result ≡ reply_to_book text.now (length list.old) }
    ensures list_after { list.new ≡ list_after text.now list.old }
{
    if list.len() < LEAST_LIST {
        return Err(Fault::ShortList.at_line(0));
    }
    // no heap: the draft has room for the most curves
    let mut draft = [0i32; LEAST_LIST];
    let curves = text_reply(text, &mut draft)?;
    let filled = CURVE_WIDTH * curves as usize;
    list[..filled].copy_from_slice(&draft[..filled]);
    Ok(curves)
}

// Why a list is not written: it is malformed or one of its names is wrong; a name stands twice; the book has no room, or no body has a card's numbers.
#[derive(Clone, Copy, Debug, PartialEq, Eq)]
pub enum ListRefusal {
    WrongList = 31,
    ListedTwin = 32,
    ShortBuffer = 33,
}

impl Numbered for ListRefusal {
    ghost numbered = { list_refusal_number };

    fn number(self) -> u32 {
        self as u32
    }
}

// A list of so many numbers has not thirteen for each of 1 to 64 curves.
fn is_wrong_length(size: usize) -> bool
    ensures { result ≡ wrong_length size }
{
    let n = size / CURVE_WIDTH;
    size % CURVE_WIDTH != 0 || n < 1 || n > PLACES
}

// Writes the book of a list of curves, thirteen numbers each, whose names stand in these bytes, and gives its count of bytes; a refused list
// leaves the buffer untouched.
pub fn write_book(list: &[i32], names: &[u8], buffer: &mut [u8]) -> Result<u32, ListRefusal>
    ensures value { told list_refusal_number result ≡ reply_to_list list.now names.now (length buffer.old) }
    ensures buffer_after { buffer.new ≡ buffer_after list.now names.now buffer.old }
{
    if is_wrong_length(list.len()) {
        return Err(ListRefusal::WrongList);
    }
    let (numbers, _) = list.as_chunks::<CURVE_WIDTH>();
    let curves = Curves { numbers, names };
    let keys = read_names(&curves).ok_or(ListRefusal::WrongList)?;
    if any_twin(&keys[..numbers.len()]) {
        return Err(ListRefusal::ListedTwin);
    }
    let size = book_size(&curves).ok_or(ListRefusal::ShortBuffer)?;
    if buffer.len() < size {
        return Err(ListRefusal::ShortBuffer);
    }
    write_lines(&curves, buffer);
    Ok(size as u32)
}
