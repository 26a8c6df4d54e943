// The curve card and what every method asks of it: the profiles, the least lengths, the reasons that come before and after a method's own, where
// rows stand, and how their numbers are rounded.
#![tactic(auto)]

mod conditions;
mod reasons;
mod tables;

ghost use Rattle.std.specs.Prelude.{◌≡◌, ◌≤◌, ◌<◌, drop};
ghost use Rattle.rounding.specs.Nearest.{tie_of, nearest_of};
ghost use Rattle.card.specs.Profile.{profile_at, added_slope};
ghost use Rattle.card.specs.Clothoid.{least_found};
ghost use Rattle.card.specs.Reasons.{first, tests_by, tests_datum, refusal_before, refusal_after, refusal_room};
ghost use Rattle.card.specs.Told.{refusal_number, number_told};
ghost use Rattle.card.specs.Rows.{rows_to, station_to, tie};

use crate::conditions::{is_neither, is_too_wide, is_wrong_height};
use crate::tables::{CLOTHOIDS, PROFILES};
pub use reasons::{Numbered, Refusal, in_numbers};
use rounding::{Tie, nearest};

// What the heights of a card count from: its own nought, the inner brow at station 0; or the benchmark, above which the axis stands at
// `height` mm at station 0 and climbs at `grade` per mille. An enum of the paper's two words, and no Option.
#[derive(Clone, Copy)]
pub enum Datum {
    Relative,
    Absolute { height: i32, grade: i32 },
}

// A curve card, its numbers in the order of the paper: lengths in mm but the radius in metres, the slope in per mille. Profile, terrain and
// unit are numbers and no enums: a card may hold any, and is refused for a wrong one.
#[derive(Clone, Copy)]
pub struct Card {
    pub profile: u32,
    pub terrain: u32,
    pub radius: u32,
    pub clothoid: u32,
    pub full_slope: u32,
    pub full_widening: u32,
    pub step: u32,
    pub unit: u32,
    pub datum: Datum,
}

// A profile: lengths in mm but the least radius in metres, slopes in per mille.
#[derive(Clone, Copy, Default)]
pub struct Profile {
    pub half_width: u32,
    pub shoulder_width: u32,
    pub crown_slope: u32,
    pub shoulder_slope: u32,
    pub least_shoulder: u32,
    pub least_radius: u32,
    pub added_level: u32,
    pub added_mountain: u32,
}

// What the search for the least length of a clothoid gives: the length in metres, and how many listed radii it looked at.
#[derive(Clone, Copy)]
pub struct LeastLength {
    pub length: u32,
    pub looked: u32,
}

// The profile with this number, 1 to 5; any other has a profile of noughts, and not None: a call that could not fail still cannot.
pub fn profile_at(number: u32) -> Profile
    ensures { result ≡ profile_at number }
{
    if !(1..=5).contains(&number) {
        return Profile::default();
    }
    let i = (number - 1) as usize;
    PROFILES[i]
}

// The added slope of a profile: terrain 1 is level, any other mountain.
pub fn added_slope(p: Profile, terrain: u32) -> u32
    ensures { result ≡ added_slope p terrain }
{
    if terrain == 1 {
        p.added_level
    } else {
        p.added_mountain
    }
}

// The least length of a clothoid, by the radius in metres: the search leaves at the first listed radius that is not below it.
// A radius above 2000, the last listed one, is sought as 2000, so that all twenty are looked at. Radius by radius, and not by halves: those that
// are looked at are counted.
pub fn least_length(radius: u32) -> LeastLength
    ensures found { result ≡ least_found radius }
    ensures all_looked { 2000 < radius → result.looked ≡ 20 }
{
    let sought = radius.min(2000);
    let mut before: u32 = 0;
    for (i, entry) in CLOTHOIDS.iter().enumerate() {
        if sought <= entry.radius {
            let looked = i as u32 + 1;
            if sought == entry.radius {
                return LeastLength {
                    length: entry.length,
                    looked,
                };
            }
            let length = before.max(entry.length);
            return LeastLength { length, looked };
        }
        before = entry.length;
    }
    unreachable!()
}

// The first of the reasons that come before a method's own, 1 to 6, where one is met.
#[tactic(auto, unfolding(crate::specs::Reasons::refusal_before))]
pub fn check_before(card: Card) -> Result<(), Refusal>
    ensures { number_told refusal_number result ≡ refusal_before card }
{
    if !(1..=5).contains(&card.profile) {
        return Err(Refusal::Profile);
    }
    if is_neither(card.terrain, 1, 2) {
        return Err(Refusal::Terrain);
    }
    check_curve(profile_at(card.profile), card)
}

// The reasons 3 to 6, of a card with the profile p.
fn check_curve(p: Profile, card: Card) -> Result<(), Refusal>
    ensures { number_told refusal_number result ≡ first (drop 2 (tests_by p card)) }
{
    if !(p.least_radius..=2000).contains(&card.radius) {
        return Err(Refusal::Radius);
    }
    let shortest = 1000 * least_length(card.radius).length;
    if !(shortest..=300000).contains(&card.clothoid) {
        return Err(Refusal::Clothoid);
    }
    if !(p.crown_slope..=60).contains(&card.full_slope) {
        return Err(Refusal::FullSlope);
    }
    if is_too_wide(card.full_widening, card.radius) {
        return Err(Refusal::Widening);
    }
    Ok(())
}

// The reasons 34 and 35, of a card with this datum: a relative one has no such reason.
fn check_datum(datum: Datum, unit: u32) -> Result<(), Refusal>
    requires { (1 ≤ unit) × (unit ≤ 10) }
    ensures { number_told refusal_number result ≡ first (tests_datum unit datum) }
{
    let Datum::Absolute { height, grade } = datum else {
        return Ok(());
    };
    if is_wrong_height(height, unit) {
        return Err(Refusal::Height);
    }
    if !(-80..=80).contains(&grade) {
        return Err(Refusal::Grade);
    }
    Ok(())
}

// The first of the reasons that come after a method's own, 9, 10, 34 and 35, where one is met.
#[tactic(auto, unfolding(crate::specs::Reasons::refusal_after))]
pub fn check_after(card: Card) -> Result<(), Refusal>
    ensures { number_told refusal_number result ≡ refusal_after card }
{
    if !(1000..=20000).contains(&card.step) {
        return Err(Refusal::Step);
    }
    if is_neither(card.unit, 1, 10) {
        return Err(Refusal::Unit);
    }
    check_datum(card.datum, card.unit)
}

// 11 where a table of `room` numbers is too short for `count` rows of `width` numbers.
#[tactic(auto, unfolding(crate::specs::Reasons::refusal_room))]
pub fn check_room(width: u32, count: u32, room: usize) -> Result<(), Refusal>
    ensures { number_told refusal_number result ≡ refusal_room width count room }
{
    let there = room as u64;
    let needed = u64::from(width) * u64::from(count);
    if there < needed {
        return Err(Refusal::ShortTable);
    }
    Ok(())
}

// How many rows stand from 0 to the end: the multiples of the step below it, and one at it. A step of 0 has none below.
pub fn row_count(end: u32, step: u32) -> usize
    ensures { result ≡ rows_to end step }
{
    if step == 0 {
        return 1;
    }
    end.div_ceil(step) as usize + 1
}

// The station of a row, counted from 0: its multiple of the step, or the end where that is not below it.
pub fn station_of(end: u32, step: u32, row: u32) -> u64
    ensures { result ≡ station_to end step row }
{
    let d = u64::from(row) * u64::from(step);
    d.min(u64::from(end))
}

// Where a halfway value goes: in whole millimetres to the higher number, in centimetres to the lower.
pub fn tie_of(unit: u64) -> Tie
    ensures { tie_of result ≡ tie unit }
{
    if unit == 1 { Tie::Higher } else { Tie::Lower }
}

// num / den micrometres in counts of the unit, which is in mm: the nearest, halfway as the unit has it; 0 beyond the sizes that 64 bits take,
// and no Option: a call that could not fail still cannot.
pub fn in_units(num: i64, den: u64, unit: u64) -> i32
    ensures { result ≡ nearest_of (tie unit) unit num den }
{
    let rule = tie_of(unit);
    nearest(num, den, unit, rule)
}
