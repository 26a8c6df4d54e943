// The calls for firmware in C: the library's own, with the card as its eleven numbers and the reply as a number and counts, since C has no
// Result.
#![tactic(auto)]

ghost use Rattle.std.specs.Prelude.{◌≡◌, ◌<◌, length};
ghost use Rattle.card.specs.Clothoid.{least_length, least_found};
ghost use Rattle.card.specs.Told.{refusal_number, number_told};
ghost use Rattle.runoff.specs.Refusal.{refusal};
ghost use Rattle.runoff.specs.Table.{reply_to, table_after};
ghost use Rattle.runoff.specs.Climbing.{ClimbingTable};
ghost use Rattle.walk.specs.Fresh.{FreshRows};
ghost use Rattle.minsk.specs.Refusal.{refusal as minsk_refusal};
ghost use Rattle.minsk.specs.Table.{reply_to as minsk_reply, table_after as minsk_table};
ghost use Rattle.minsk.specs.Climbing.{ClimbingTable as MinskClimbing};
ghost use Rattle.card_list.specs.List.{card_of, cards_of};
ghost use Rattle.day.specs.Day.{day_reply, day_table, day_replies};
ghost use Rattle.day.specs.Parts.{ClimbingDay};
ghost use Rattle.book.specs.Book.{reply_to_book, list_after};
ghost use Rattle.book.specs.Writing.{reply_to_list, buffer_after};

use book::{read_book, write_book};
use card::{Numbered, Refusal, in_numbers, least_length};
use card_list::card_of_numbers;
use day::fill_day;
use runoff::{check_card, fill_table};
use walk::walk_table;

// The least length of a clothoid in metres, by the radius in metres; `looked` has how many listed radii were looked at, above 2000 all twenty.
#[unsafe(no_mangle)]
pub extern "C" fn pippinterm_least_length(radius: u32, looked: &mut u32) -> u32
    ensures value { result ≡ least_length radius }
    ensures looked_after { looked.new ≡ (least_found radius).looked }
    ensures all_looked { 2000 < radius → looked.new ≡ 20 }
{
    let found = least_length(radius);
    let radii = found.looked;
    *looked = radii;
    found.length
}

// The answer of a check in the papers' numbers: 0, or that of the refusal.
fn number_of(answer: Result<(), Refusal>) -> u32
    ensures { result ≡ number_told refusal_number answer }
{
    match answer {
        Ok(()) => 0,
        Err(refusal) => refusal.number(),
    }
}

// By 503-0-45: 0 for an accepted card, else the number of the first of its own reasons: 1 to 6, 8, 9, 10, 34 or 35.
#[unsafe(no_mangle)]
pub extern "C" fn pippinterm_check_card(card: &[i32; 11]) -> u32
    ensures { result ≡ refusal (card_of card.now) }
{
    number_of(check_card(card_of_numbers(card)))
}

// Fills the lent table with the card's rows by 503-0-45: 0, and `count` has how many; or the number of the reason, 1 to 6, 8 to 11, 34 or 35, `count` has 0, and the table is as it was.
#[unsafe(no_mangle)]
pub extern "C" fn pippinterm_fill_table(card: &[i32; 11], table: &mut [i32], count: &mut u32) -> u32
    ensures value { result ≡ (reply_to (card_of card.now) (length table.old)).number }
    ensures count_after { count.new ≡ (reply_to (card_of card.now) (length table.old)).count }
    ensures table_after { table.new ≡ table_after (card_of card.now) table.old }
    ensures climbing_table { result ≡ 0 → ClimbingTable (card_of card.now) count.new table.new }
{
    let (number, rows) = in_numbers(fill_table(card_of_numbers(card), table));
    *count = rows;
    number
}

// Fills the lent table with the card's rows by 503-0-45, walking from row to row: number, count and table of `pippinterm_fill_table`. `fresh` has how
// many rows were worked afresh, and 0 with a refusal.
#[unsafe(no_mangle)]
pub extern "C" fn pippinterm_walk_table(
    card: &[i32; 11],
    table: &mut [i32],
    count: &mut u32,
    fresh: &mut u32,
) -> u32
    ensures value { result ≡ (reply_to (card_of card.now) (length table.old)).number }
    ensures count_after { count.new ≡ (reply_to (card_of card.now) (length table.old)).count }
    ensures fresh_after { FreshRows (card_of card.now) (length table.old) fresh.new }
    ensures table_after { table.new ≡ table_after (card_of card.now) table.old }
    ensures climbing_table { result ≡ 0 → ClimbingTable (card_of card.now) count.new table.new }
{
    let (number, walked, afresh) = walk::in_numbers(walk_table(card_of_numbers(card), table));
    *count = walked;
    *fresh = afresh;
    number
}

// By the method of the Minsk handbook: 0 for an accepted card, else the number of the first of its own reasons: 1 to 6, 36 to 38, 8, 9, 10, 34
// or 35.
#[unsafe(no_mangle)]
pub extern "C" fn pippinterm_check_minsk_card(card: &[i32; 11]) -> u32
    ensures { result ≡ minsk_refusal (card_of card.now) }
{
    number_of(minsk::check_card(card_of_numbers(card)))
}

// Fills the lent table with the card's rows by that method, nine numbers each: 0, and `count` has how many; or the number of the reason, those
// of the check and 11, `count` has 0, and the table is as it was.
#[unsafe(no_mangle)]
pub extern "C" fn pippinterm_fill_minsk_table(
    card: &[i32; 11],
    table: &mut [i32],
    count: &mut u32,
) -> u32
    ensures value { result ≡ (minsk_reply (card_of card.now) (length table.old)).number }
    ensures count_after { count.new ≡ (minsk_reply (card_of card.now) (length table.old)).count }
    ensures table_after { table.new ≡ minsk_table (card_of card.now) table.old }
    ensures climbing_table { result ≡ 0 → MinskClimbing (card_of card.now) count.new table.new }
{
    let (number, stations) = in_numbers(minsk::fill_table(card_of_numbers(card), table));
    *count = stations;
    number
}

// Fills the lent table with the rows of a day's cards, eleven numbers each, and the reply list with each card's number and count: 0, and `count`
// has how many cards; or 29 or 30, `count` has 0, and both are as they were.
#[unsafe(no_mangle)]
pub extern "C" fn pippinterm_fill_day(
    cards: &[[i32; 11]],
    table: &mut [i32],
    replies: &mut [u32],
    count: &mut u32,
) -> u32
    ensures value { result ≡ (day_reply (length cards.now) (length replies.old)).number }
    ensures count_after { count.new ≡ (day_reply (length cards.now) (length replies.old)).count }
    ensures table_after { table.new ≡ day_table (cards_of cards.now) table.old replies.old }
    ensures replies_after { replies.new ≡ day_replies (cards_of cards.now) table.old replies.old }
    ensures climbing_day { result ≡ 0 → ClimbingDay (cards_of cards.now) table.new replies.new }
{
    let (number, taken) = in_numbers(fill_day(cards, table, replies));
    *count = taken;
    number
}

// Reads a book into the lent list, thirteen numbers a curve: 0, and `count` has how many curves; or the number of the refusal, 21 to 28, `count` has 0, and the list is as it was. `line` has the line at fault, and 0 where it is no line's.
#[unsafe(no_mangle)]
pub extern "C" fn pippinterm_read_book(
    text: &[u8],
    list: &mut [i32],
    count: &mut u32,
    line: &mut u32,
) -> u32
    ensures value { result ≡ (reply_to_book text.now (length list.old)).number }
    ensures count_after { count.new ≡ (reply_to_book text.now (length list.old)).count }
    ensures line_after { line.new ≡ (reply_to_book text.now (length list.old)).line }
    ensures list_after { list.new ≡ list_after text.now list.old }
{
    let (number, curves, at) = book::in_numbers(read_book(text, list));
    *count = curves;
    *line = at;
    number
}

// Writes the book of a list of curves, thirteen numbers each, whose names stand in the bytes of `names`: 0, and `count` has how many bytes; or the
// number of the refusal, 31 to 33, `count` has 0, and the buffer is as it was.
#[unsafe(no_mangle)]
pub extern "C" fn pippinterm_write_book(
    list: &[i32],
    names: &[u8],
    buffer: &mut [u8],
    count: &mut u32,
) -> u32
    ensures value { result ≡ (reply_to_list list.now names.now (length buffer.old)).number }
    ensures count_after { count.new ≡ (reply_to_list list.now names.now (length buffer.old)).count }
    ensures buffer_after { buffer.new ≡ buffer_after list.now names.now buffer.old }
{
    let (number, bytes) = in_numbers(write_book(list, names, buffer));
    *count = bytes;
    number
}
