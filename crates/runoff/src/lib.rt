// The section rules of typical design 503-0-45: the check of a curve card, the runoff that is made of an accepted one, and the table of its heights.
#![tactic(auto)]

mod conditions;
mod rows;
mod turning;

ghost use Rattle.std.specs.Prelude.{◌≡◌, ◌≤◌, length, IfOk};
ghost use Rattle.card.specs.Profile.{profile_at};
ghost use Rattle.card.specs.Reasons.{first, refusal_before};
ghost use Rattle.card.specs.Told.{refusal_number, number_told, with_number, told};
ghost use Rattle.runoff.specs.Refusal.{method_tests, refusal};
ghost use Rattle.runoff.specs.Runoff.{stages_of, runoff_of, made_of};
ghost use Rattle.section.specs.Lines.{section_by};
ghost use Rattle.runoff.specs.Table.{reply_to, table_after};
ghost use Rattle.runoff.specs.Climbing.{ClimbingTable};

use crate::conditions::is_too_steep;
use crate::rows::write_rows;
use card::{
    Card, Profile, Refusal, added_slope, check_after, check_before, check_room, profile_at,
    row_count,
};
pub use turning::{Slope, Slopes, Station};

// How many numbers a row has in a table.
pub const ROW_WIDTH: usize = 7;

// How the outer slope turns: evenly, or in two stages whose joint is at num / den mm. Document 01 asks for this enum.
#[derive(Clone, Copy)]
pub enum Stages {
    Even,
    TwoStage { num: u64, den: u64 },
}

// The runoff of an accepted card: lengths in mm, slopes in per mille.
#[derive(Clone, Copy)]
pub struct Runoff {
    pub stages: Stages,
    pub half_width: u64,
    pub shoulder_width: u64,
    pub least_shoulder: u64,
    pub crown_slope: u64,
    pub shoulder_slope: u64,
    pub full_slope: u64,
    pub full_widening: u64,
    pub clothoid: u64,
}

// The first of a card's own reasons, 1 to 6, 8, 9, 10, 34 or 35, where one is met.
pub fn check_card(card: Card) -> Result<(), Refusal>
    ensures { number_told refusal_number result ≡ refusal card }
{
    check_before(card)?;
    check_section(card)?;
    check_after(card)
}

// The reason 8, of a card that those before let pass.
fn check_section(card: Card) -> Result<(), Refusal>
    requires { refusal_before card ≡ 0 }
    ensures { number_told refusal_number result ≡ first (method_tests (profile_at card.profile) card) }
{
    let p = profile_at(card.profile);
    let added = added_slope(p, card.terrain);
    if is_too_steep(p, added, card.full_slope, card.clothoid) {
        return Err(Refusal::AddedSlope);
    }
    Ok(())
}

// Even when h × (p + v) is at least 3 × L, else two-stage with the joint at 2 × h × p / 3.
fn stages_of(p: Profile, card: Card) -> Stages
    requires { (p.half_width ≤ 3750) × (p.crown_slope ≤ 30) × (card.full_slope ≤ 60) }
    ensures { result ≡ stages_of (section_by p card) }
{
    let half = u64::from(p.half_width);
    let crown = u64::from(p.crown_slope);
    let clothoid = u64::from(card.clothoid);
    let climb = half * (crown + u64::from(card.full_slope));
    let floor = 3 * clothoid;
    if climb >= floor {
        return Stages::Even;
    }
    let num = 2 * half * crown;
    Stages::TwoStage { num, den: 3 }
}

// The runoff of an accepted card: whether it is even or two-stage is decided once.
#[tactic(auto, unfolding(crate::specs::Runoff::runoff_of))]
fn runoff_of(card: Card) -> Runoff
    requires { refusal card ≡ 0 }
    ensures { result ≡ runoff_of card }
{
    let p = profile_at(card.profile);
    Runoff {
        stages: stages_of(p, card),
        half_width: u64::from(p.half_width),
        shoulder_width: u64::from(p.shoulder_width),
        least_shoulder: u64::from(p.least_shoulder),
        crown_slope: u64::from(p.crown_slope),
        shoulder_slope: u64::from(p.shoulder_slope),
        full_slope: u64::from(card.full_slope),
        full_widening: u64::from(card.full_widening),
        clothoid: u64::from(card.clothoid),
    }
}

// The runoff of an accepted card, or the reason that refuses it.
#[tactic(auto, using(crate::proofs::MadeNumber::accepts, crate::proofs::MadeNumber::refuses))]
pub fn make_runoff(card: Card) -> Result<Runoff, Refusal>
    ensures { with_number refusal_number result ≡ made_of card }
{
    check_card(card)?;
    Ok(runoff_of(card))
}

// Fills the lent table with the card's rows and says how many; or leaves it as it is and says why.
pub fn fill_table(card: Card, table: &mut [i32]) -> Result<u32, Refusal>
    ensures value { told refusal_number result ≡ reply_to card (length table.old) }
    ensures table_after { table.new ≡ table_after card table.old }
    ensures climbing_table { IfOk result (λ count. ClimbingTable card count table.new) }
{
    let r = make_runoff(card)?;
    let rows = row_count(card.clothoid, card.step);
    let count = rows as u32;
    let room = table.len();
    check_room(ROW_WIDTH as u32, count, room)?;
    write_rows(card, r, rows, table);
    Ok(count)
}
