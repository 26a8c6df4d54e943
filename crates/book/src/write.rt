// Writes the lines of a book into a buffer with room for them.
ghost use Rattle.std.specs.Prelude.{◌≡◌, false, ◌≤◌, length, map};
ghost use Rattle.std.proofs.lemmas.List.Edits.{sets};
ghost use Rattle.decimal.specs.Places.{HasRoom, Wrote};
ghost use Rattle.book.specs.Printed.{IsNumber, contents_text, body_text, book_text};
ghost use Rattle.book.specs.Meaning.{curve_in};
ghost use Rattle.book.specs.Writing.{is_unfit, some_unfit};
ghost use Rattle.book.specs.WriterSteps.{any_wrong, cards_in, contents_left, bodies_left};

use crate::CARD_NUMBERS;
use crate::curves::Curves;
use crate::lines::end_byte;
use crate::numbers::{shown_at, shown_count};
use card_list::name_of_curve;
use decimal::Place;

// Writes a contents line.
fn write_heading(name: &[u8], line: u32, place: &mut Place)
    requires number { IsNumber line }
    requires room { HasRoom place.old (contents_text name.now line) }
    ensures { Wrote place.old place.new (contents_text name.now line) }
{
    place.put_ended(name, b' ');
    place.put_ended(line, b'\n');
}

// Writes a body.
fn write_body(numbers: &[i32; CARD_NUMBERS], place: &mut Place)
    requires fit { is_unfit numbers.now ≡ false }
    requires room { HasRoom place.old (body_text numbers.now) }
    ensures { Wrote place.old place.new (body_text numbers.now) }
{
    let n = shown_count(numbers);
    for i in 0..n {
        let v = shown_at(numbers, i);
        let end = end_byte((n - (i + 1)) as u32);
        place.put_ended(v, end);
    }
}

// Writes the contents lines of these curves.
fn write_contents(curves: &Curves, place: &mut Place)
    requires right { any_wrong curves.now.names.now curves.now.numbers.now ≡ false }
    requires room { HasRoom place.old (contents_left curves.now.names.now curves.now.numbers.now 0) }
    ensures { Wrote place.old place.new (contents_left curves.now.names.now curves.now.numbers.now 0) }
{
    let n = curves.numbers.len();
    for (i, curve) in curves.numbers.iter().enumerate() {
        let name = name_of_curve(curve, 0);
        let start = name.place as usize;
        let end = start + name.size as usize;
        let line = (n + i + 2) as u32;
        write_heading(&curves.names[start..end], line, place);
    }
}

// Writes the bodies of these curves.
fn write_bodies(curves: &Curves, place: &mut Place)
    requires fit { some_unfit (cards_in curves.now.numbers.now) ≡ false }
    requires room { HasRoom place.old (bodies_left curves.now.numbers.now 0) }
    ensures { Wrote place.old place.new (bodies_left curves.now.numbers.now 0) }
{
    for curve in curves.numbers {
        write_body(curve.last_chunk().unwrap(), place);
    }
}

// Writes the book of these curves, from the buffer's start on.
pub(crate) fn write_lines(curves: &Curves, buffer: &mut [u8])
    requires right { any_wrong curves.now.names.now curves.now.numbers.now ≡ false }
    requires fit { some_unfit (cards_in curves.now.numbers.now) ≡ false }
    requires room { length (book_text (map (curve_in curves.now.names.now) curves.now.numbers.now)) ≤ length buffer.old }
    ensures { buffer.new ≡ sets buffer.old 0 (book_text (map (curve_in curves.now.names.now) curves.now.numbers.now)) }
{
    let mut place = Place::start(buffer);
    place.put_ended(curves.numbers.len() as u32, b'\n');
    write_contents(curves, &mut place);
    write_bodies(curves, &mut place);
}
