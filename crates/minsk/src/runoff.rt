// The runoff of an accepted card: its stages and its widening are placed once, so that nothing is divided at a station.
ghost use Rattle.std.specs.Prelude.{◌≡◌};
ghost use Rattle.minsk_section.specs.Lines.{section_of};
ghost use Rattle.minsk.specs.Refusal.{refusal};
ghost use Rattle.minsk.specs.Reckoning.{StageIs, GrowthIs, section_in, Limits};

use crate::widths::widths_at;
use card::Card;

// How long the widening grows, in mm.
pub(crate) const GROWS: u64 = 20000;

// Where the first stage ends: at end / per mm.
#[derive(Clone, Copy)]
pub(crate) struct Stage {
    pub end: u64,
    pub per: u64,
}

// Where the widening starts, in mm, and what its parts at a station are over.
#[derive(Clone, Copy)]
pub(crate) struct Growth {
    pub start: u64,
    pub over: u64,
}

// Lengths in mm but the radius in metres, the slope in per mille. The radius has done its work in the two places; it is kept for what the contracts
// say of the section.
#[derive(Clone, Copy)]
pub(crate) struct Runoff {
    pub half_width: u64,
    pub shoulder_width: u64,
    pub strip_width: u64,
    pub least_shoulder: u64,
    pub full_slope: u64,
    pub full_widening: u64,
    pub clothoid: u64,
    pub radius: u64,
    pub stage: Stage,
    pub growth: Growth,
}

// L × R / 2000. With a widening L × R / 500 is whole, and a quarter of it keeps the products of a row within 64 bits.
fn stage_of(card: Card) -> Stage
    requires { refusal card ≡ 0 }
    ensures { StageIs (section_of card) result }
{
    let end = u64::from(card.clothoid) * u64::from(card.radius);
    if card.full_widening == 0 {
        return Stage { end, per: 2000 };
    }
    Stage {
        end: end / 500,
        per: 4,
    }
}

// 20 m before L × R / 500, which is whole where there is a widening. Where there is none, its place does not matter, and its parts are over 1: so
// the products of a row keep within 64 bits.
fn growth_of(card: Card) -> Growth
    requires { refusal card ≡ 0 }
    ensures { GrowthIs (section_of card) result }
{
    let end = u64::from(card.clothoid) * u64::from(card.radius) / 500;
    let start = end - GROWS;
    if card.full_widening == 0 {
        return Growth { start, over: 1 };
    }
    Growth { start, over: GROWS }
}

// The runoff of an accepted card.
pub(crate) fn runoff_of(card: Card) -> Runoff
    requires { refusal card ≡ 0 }
    ensures section { section_in result ≡ section_of card }
    ensures limits { Limits result }
{
    let w = widths_at(card.profile);
    Runoff {
        half_width: u64::from(w.half),
        shoulder_width: u64::from(w.shoulder),
        strip_width: u64::from(w.strip),
        least_shoulder: u64::from(w.least),
        full_slope: u64::from(card.full_slope),
        full_widening: u64::from(card.full_widening),
        clothoid: u64::from(card.clothoid),
        radius: u64::from(card.radius),
        stage: stage_of(card),
        growth: growth_of(card),
    }
}
