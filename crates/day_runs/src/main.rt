// Runs the first cards of a book through both calls for a day's cards, that over card structs and that over plain numbers, with tables and reply
// lists of some lengths. Prints the reply and the reply list of the first, and in how many numbers of its reply, table and reply list the
// second differs.
#![tactic(auto)]

ghost use Rattle.std.specs.Prelude.{◌≡◌, ◌+◌, ◌*◌, ◌≤◌, ◌<◌, length};
ghost use Rattle.card.specs.Told.{told};
ghost use Rattle.day.specs.Day.{day_reply};
ghost use Rattle.day.specs.Told.{day_refusal_number};

use book::{LEAST_LIST, MOST_BYTES};
use card::{Card, in_numbers};
use card_list::CURVE_WIDTH;
use day::{DayRefusal, fill_day};
use std::{array, io};

// One card more than a day may have.
const CARDS_ROOM: usize = 65;

const CARD_NUMBERS: usize = 11;

// Room for nine rows, and for two numbers a card and two more.
const TABLE_ROOM: usize = 63;

const REPLIES_ROOM: usize = 132;

// What a run lends: how many cards, numbers of the table and numbers of the reply list, and how many of the table to the second call.
#[derive(Clone, Copy)]
struct Lent {
    cards: usize,
    table: usize,
    replies: usize,
    second: usize,
    ghost cards_bound: { cards ≤ 65 },
    ghost table_bound: { table ≤ 63 },
    ghost replies_bound: { replies ≤ 132 },
    ghost second_bound: { second ≤ 63 },
}

// The reply of a call, and the table and the reply list after it.
#[derive(Drop)]
struct Outcome {
    reply: Result<u32, DayRefusal>,
    table: [i32; TABLE_ROOM],
    replies: [u32; REPLIES_ROOM],
}

fn rooms(cards: usize, table: usize, replies: usize) -> Lent
    requires cards_bound { cards ≤ 65 }
    requires table_bound { table ≤ 63 }
    requires replies_bound { replies ≤ 132 }
{
    Lent {
        cards,
        table,
        replies,
        second: table,
    }
}

// The cards of the first curves as plain numbers, eleven each, as they stand last in a curve of the list; a curve past the list's end has
// noughts.
fn bodies_of(list: &[i32; LEAST_LIST]) -> [[i32; CARD_NUMBERS]; CARDS_ROOM] {
    let mut bodies = [[0; CARD_NUMBERS]; CARDS_ROOM];
    for (body, curve) in bodies.iter_mut().zip(list.chunks_exact(CURVE_WIDTH)) {
        if let Some(numbers) = curve.last_chunk() {
            *body = *numbers;
        }
    }
    bodies
}

// The same as structs.
fn cards_of(list: &[i32; LEAST_LIST]) -> [Card; CARDS_ROOM] {
    array::from_fn(|curve| card_list::card_of_curve(list, curve as u32))
}

// Lends the first cards to the call.
fn fill_first(
    cards: &[Card; CARDS_ROOM],
    count: usize,
    table: &mut [i32],
    replies: &mut [u32],
) -> Result<u32, DayRefusal>
    requires { count ≤ 65 }
    ensures { told day_refusal_number result ≡ day_reply count (length replies.old) }
{
    fill_day(&cards[..count], table, replies)
}

// What stands at a place of the table or the reply list before a call: a number for each place that no row and no reply holds.
fn mark(place: usize) -> u32
    requires { place < 132 }
    ensures { result < 1000000132 }
{
    let number = 1000000000 + place;
    number as u32
}

// Runs a call with the first numbers of a table and of a reply list.
fn run_call<F: FnOnce(&mut [i32], &mut [u32]) -> Result<u32, DayRefusal>>(
    table_lent: usize,
    replies_lent: usize,
    call: F,
) -> Outcome
    requires table_bound { table_lent ≤ 63 }
    requires replies_bound { replies_lent ≤ 132 }
    requires callable { F.IsAlwaysCallable call }
{
    let mut table: [i32; TABLE_ROOM] = array::from_fn(|place| mark(place) as i32);
    let mut replies: [u32; REPLIES_ROOM] = array::from_fn(mark);
    let reply = call(&mut table[..table_lent], &mut replies[..replies_lent]);
    Outcome {
        reply,
        table,
        replies,
    }
}

// At how many places two lists have different numbers.
fn differ<T: PartialEq>(one: &[T], other: &[T]) -> usize
    ensures { result ≤ length one.now }
{
    let pairs = one.iter().zip(other);
    pairs.filter(|(number, answer)| number != answer).count()
}

// In how many of their numbers two replies, tables and reply lists differ.
fn outcomes_differ(one: &Outcome, other: &Outcome) -> usize
    ensures { result ≤ 197 }
{
    let (number, count) = in_numbers(one.reply);
    let (other_number, other_count) = in_numbers(other.reply);
    differ(&[number, count], &[other_number, other_count])
        + differ(&one.table, &other.table)
        + differ(&one.replies, &other.replies)
}

// The reply, and the first numbers of the reply list.
fn print_replies(rt: &impl Print, outcome: &Outcome, shown: usize) -> io::Result<()>
    requires { shown ≤ 132 }
{
    let (number, count) = in_numbers(outcome.reply);
    print!(rt; "{number} {count} ")?;
    for number in &outcome.replies[..shown] {
        print!(rt; "{number} ")?;
    }
    Ok(())
}

// One run by both calls. Of the reply list it prints two numbers more than the cards have in it.
fn run_day(
    rt: &impl Print,
    cards: &[Card; CARDS_ROOM],
    bodies: &[[i32; CARD_NUMBERS]; CARDS_ROOM],
    lent: Lent,
) -> io::Result<()> {
    let count = lent.cards;
    let first = run_call(lent.table, lent.replies, |table, replies| {
        fill_first(cards, count, table, replies)
    });
    let second = run_call(lent.second, lent.replies, |table, replies| {
        fill_day(&bodies[..count], table, replies)
    });
    print_replies(rt, &first, 2 * count + 2)?;
    println!(rt; "differ: {}", outcomes_differ(&first, &second))
}

fn main(rt: HostRuntime) -> io::Result<()> {
    let mut text = [0u8; MOST_BYTES];
    let got = input::read_full(&mut rt.stdin(), &mut text)?;
    let mut list = [0i32; LEAST_LIST];
    // a refused book leaves noughts in the list, which are run all the same
    let _ = book::read_book(&text[..got], &mut list);
    let cards = cards_of(&list);
    let bodies = bodies_of(&list);
    let runs = [
        rooms(0, 63, 132),
        rooms(0, 0, 0),
        rooms(1, 21, 2),
        rooms(1, 20, 2),
        rooms(2, 63, 4),
        rooms(3, 63, 7),
        rooms(3, 63, 6),
        rooms(3, 63, 5),
        rooms(5, 63, 10),
        rooms(5, 45, 12),
        rooms(64, 63, 132),
        rooms(64, 63, 128),
        rooms(64, 63, 127),
        rooms(65, 63, 132),
        rooms(65, 63, 129),
        rooms(65, 0, 0),
        // the second call is lent one number too few for its only card
        Lent {
            cards: 1,
            table: 21,
            replies: 2,
            second: 20,
        },
    ];
    for lent in runs {
        run_day(&rt, &cards, &bodies, lent)?;
    }
    Ok(())
}
