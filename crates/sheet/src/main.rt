// Prints the sheet of the book of cards on standard input: its curves in book order, or its refusal.
// It decides nothing: the calls say what is read, reckoned and printed.
#![tactic(auto)]

ghost use Rattle.std.specs.Prelude.{IsSomeAnd, ◌≡◌, ◌≤◌, ◌<◌, pos, length, replicate};
ghost use Rattle.book.specs.Book.{least_list, reply_to_book, list_after};
ghost use Rattle.sheet_text.specs.Buffer.{written_of, buffer_after};
ghost use Rattle.sheet_text.specs.Sheet.{enough_numbers, enough_bytes, part_of};

use book::{BookRefusal, LEAST_LIST, MOST_BYTES};
use card::Numbered;
use sheet_text::{ENOUGH_BYTES, ENOUGH_NUMBERS};
use std::io;

// One byte more than a book may have, so that a longer input is seen to be longer.
const TEXT_ROOM: usize = MOST_BYTES + 1;

// Prints a text that fits the buffer, and stands in it from its start.
fn print_written(rt: &impl Print, written: Option<usize>, buffer: &[u8]) -> io::Result<()>
    requires { IsSomeAnd written (λ size. size ≤ length buffer.now) }
{
    let size = written.unwrap();
    rt.write_all(&buffer[..size])
}

// Prints the line of a refused book.
fn print_book(rt: &impl Print, refusal: BookRefusal, buffer: &mut [u8]) -> io::Result<()>
    requires { enough_bytes ≤ length buffer.old }
{
    let written = sheet_text::book_text(refusal.fault.number(), refusal.line, buffer);
    print_written(rt, written, buffer)
}

// Writes the text of a curve of the list, counted from 0: its card goes to the table call, and the reply and the rows become text.
fn write_curve(
    text: &[u8],
    list: &[i32; LEAST_LIST],
    curve: u32,
    table: &mut [i32],
    buffer: &mut [u8],
) -> Option<usize>
    ensures value { result ≡ written_of (part_of text.now list.now curve table.old) (length buffer.old) }
    ensures buffer_after { buffer.new ≡ buffer_after (part_of text.now list.now curve table.old) buffer.old }
{
    let card = card_list::card_of_curve(list, curve);
    let reply = runoff::fill_table(card, table);
    sheet_text::curve_text(text, list, curve, reply, table, buffer)
}

// Prints a curve that the book counts, from the list that its text was read into.
// Text and list stay as they are and table and buffer do not, so they are lent apart: a struct of the four would have to promise it.
fn print_curve(
    rt: &impl Print,
    text: &[u8],
    list: &[i32; LEAST_LIST],
    curve: u32,
    table: &mut [i32],
    buffer: &mut [u8],
) -> io::Result<()>
    requires list_value { list.now ≡ list_after text.now (replicate least_list (pos 0)) }
    requires curve_bound { curve < (reply_to_book text.now least_list).count }
    requires enough_numbers_in_bounds { (enough_numbers ≤ length table.old) × (enough_bytes ≤ length buffer.old) }
{
    let written = write_curve(text, list, curve, table, buffer);
    print_written(rt, written, buffer)
}

// Prints a refused book's line, or each curve of an accepted one, in order.
fn print_sheet(rt: &impl Print, text: &[u8]) -> io::Result<()> {
    let mut list = [0i32; LEAST_LIST];
    let mut table = [0i32; ENOUGH_NUMBERS];
    let mut buffer = [0u8; ENOUGH_BYTES];
    let curves = match book::read_book(text, &mut list) {
        Ok(curves) => curves,
        Err(refusal) => return print_book(rt, refusal, &mut buffer),
    };
    for curve in 0..curves {
        print_curve(rt, text, &list, curve, &mut table, &mut buffer)?;
    }
    Ok(())
}

fn main(rt: HostRuntime) -> io::Result<()> {
    let mut text = [0u8; TEXT_ROOM];
    let got = input::read_full(&mut rt.stdin(), &mut text)?;
    print_sheet(&rt, &text[..got])
}
