// The section rules of the Minsk handbook's method: the check of a curve card, and the table of its heights.
#![tactic(auto)]

mod conditions;
mod rows;
mod runoff;
mod turning;
mod widths;

ghost use Rattle.std.specs.Prelude.{◌≡◌, length, IfOk};
ghost use Rattle.card.specs.Reasons.{first, refusal_before};
ghost use Rattle.card.specs.Told.{refusal_number, number_told, told};
ghost use Rattle.minsk.specs.Refusal.{method_tests, refusal};
ghost use Rattle.minsk.specs.Table.{reply_to, table_after};
ghost use Rattle.minsk.specs.Climbing.{ClimbingTable};

use crate::conditions::{is_not_for, is_not_placed, is_too_long, is_too_steep};
use crate::rows::write_rows;
use crate::widths::widths_at;
use card::{
    Card, Refusal, added_slope, check_after, check_before, check_room, profile_at, row_count,
};

// How many numbers a row has in a table.
pub const ROW_WIDTH: usize = 9;

// The first of a card's own reasons, 1 to 6, 36, 37, 38, 8, 9, 10, 34 or 35, where one is met.
pub fn check_card(card: Card) -> Result<(), Refusal>
    ensures { number_told refusal_number result ≡ refusal card }
{
    check_before(card)?;
    check_section(card)?;
    check_after(card)
}

// The reasons of this method, 36, 37, 38 and 8, of a card that those before let pass.
fn check_section(card: Card) -> Result<(), Refusal>
    requires { refusal_before card ≡ 0 }
    ensures { number_told refusal_number result ≡ first (method_tests card) }
{
    let widths = widths_at(card.profile);
    let added = added_slope(profile_at(card.profile), card.terrain);
    if is_not_for(card) {
        return Err(Refusal::Method);
    }
    if is_too_long(widths, card) {
        return Err(Refusal::FirstStage);
    }
    if is_not_placed(card) {
        return Err(Refusal::WideningPlace);
    }
    if is_too_steep(widths, added, card) {
        return Err(Refusal::AddedSlope);
    }
    Ok(())
}

// Fills the lent table with the card's rows and says how many; or leaves it as it is and says why.
pub fn fill_table(card: Card, table: &mut [i32]) -> Result<u32, Refusal>
    ensures value { told refusal_number result ≡ reply_to card (length table.old) }
    ensures table_after { table.new ≡ table_after card table.old }
    ensures climbing_table { IfOk result (λ count. ClimbingTable card count table.new) }
{
    check_card(card)?;
    let rows = row_count(card.clothoid, card.step);
    let count = rows as u32;
    let room = table.len();
    check_room(ROW_WIDTH as u32, count, room)?;
    write_rows(card, rows, table);
    Ok(count)
}
