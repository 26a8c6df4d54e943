// The axis of a card at a station, and the heights of lines that keep their distance from it: whole units and a rest, rounded once. Nothing is asked
// of a caller: beyond the sizes each answer has a name.
#![tactic(auto)]

mod axis;

ghost use Rattle.std.specs.Prelude.{◌≡◌, ◌-◌, max};
ghost use Rattle.heights.specs.Counts.{count_of};

pub use axis::Axis;
use card::in_units;

// The greater of least and up - down, which may be below nought.
pub fn at_least(least: u64, up: u64, down: u64) -> u64
    ensures { result ≡ max least (up - down) }
{
    up.saturating_sub(down).max(least)
}

// (up - down) / over micrometres in counts of the unit, which is in mm. The difference is wrapped, and no Option: a call that could not fail
// still cannot. The three stay apart, as in `Axis::height`.
pub fn height(up: u64, down: u64, over: u64, unit: u64) -> i32
    ensures { result ≡ count_of up down over unit }
{
    let net = up.wrapping_sub(down).cast_signed();
    in_units(net, over, unit)
}
