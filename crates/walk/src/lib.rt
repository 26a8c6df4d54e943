// The table of 503-0-45 walked from row to row: each row is made from the one before by adding and carrying the remainder. Worked afresh are only the
// first row, the last, the first past the stage joint and the first past each station where a greater-of rule changes sides.
#![tactic(auto)]

mod afresh;
mod pieces;
mod stepping;
mod turns;

ghost use Rattle.std.specs.Prelude.{◌≡◌, length, IfOk};
ghost use Rattle.card.specs.Told.{refusal_number, told};
ghost use Rattle.runoff.specs.Table.{reply_to, table_after};
ghost use Rattle.runoff.specs.Climbing.{ClimbingTable};
ghost use Rattle.walk.specs.Fresh.{FreshRows};
ghost use Rattle.walk.specs.Answer.{count_in, fresh_in};

use crate::pieces::write_rows;
use card::{Card, Numbered, Refusal, check_room, row_count};
use runoff::{ROW_WIDTH, make_runoff};

// What a walked table is answered: how many rows it has, and how many of them were worked afresh.
#[derive(Clone, Copy)]
pub struct Walked {
    pub count: u32,
    pub fresh: u32,
}

// An answer in the papers' numbers: 0, its count of rows and how many were worked afresh; or the refusal's number, 0 and 0.
pub fn in_numbers(answer: Result<Walked, Refusal>) -> (u32, u32, u32)
    ensures number { result.0 ≡ (told refusal_number (count_in answer)).number }
    ensures count { result.1 ≡ (told refusal_number (count_in answer)).count }
    ensures fresh { result.2 ≡ fresh_in answer }
{
    match answer {
        Ok(walked) => (0, walked.count, walked.fresh),
        Err(refusal) => (refusal.number(), 0, 0),
    }
}

// Fills the lent table with the card's rows, walking from row to row, and says how many they are and how many of them were worked afresh; or leaves
// it as it is and says why. Number, count and table are those of `runoff::fill_table`.
pub fn walk_table(card: Card, table: &mut [i32]) -> Result<Walked, Refusal>
    ensures value { told refusal_number (count_in result) ≡ reply_to card (length table.old) }
    ensures fresh_rows { FreshRows card (length table.old) (fresh_in result) }
    ensures table_after { table.new ≡ table_after card table.old }
    ensures climbing_table { IfOk result (λ walked. ClimbingTable card walked.count table.new) }
{
    let r = make_runoff(card)?;
    let rows = row_count(card.clothoid, card.step);
    let count = rows as u32;
    let room = table.len();
    check_room(ROW_WIDTH as u32, count, room)?;
    let fresh = write_rows(card, r, rows, table);
    Ok(Walked { count, fresh })
}
