// The axis of a card at a station, above the card's own nought or above the benchmark, and the heights of lines that keep their distance from it.
ghost use Rattle.std.specs.Prelude.{◌≡◌, ◌≤◌, nat_abs};

use crate::height;
use rounding::floor_div;

// How high an axis that stays may be, in micrometres, and how far from the start a station may be, in mm.
const MOST_REST: u64 = 337500;

const MOST_STATION: u64 = 330000;

// The axis at a station: so many whole units, of `unit` mm each, and `rest` micrometres above them. Its rest is no higher than any relative
// axis, and its count leaves room in 32 bits.
#[derive(Clone, Copy)]
pub struct Axis {
    pub count: i32,
    pub rest: u64,
    pub unit: u64,
    ghost rest_most: { rest ≤ 337500 },
    ghost count_most: { nat_abs count ≤ 10000000 },
    ghost unit_least: { 1 ≤ unit },
    ghost unit_most: { unit ≤ 10 },
}

// The bounds are asked where an axis is made, and by no method: it keeps them.
impl Axis {
    ghost use Rattle.exact.specs.Exact.{whole, ratio, ◌⊕◌};
    ghost use Rattle.card.specs.Rows.{in_units};
    ghost use Rattle.card.specs.Datum.{surveyed_axis};
    ghost use Rattle.heights.specs.Heights.{count_above, height_of, AxisIs, AllRest, AtNought, Stays, Climbs};

    // The axis that stands for one that cannot be held: at nought, in whole millimetres.
    fn at_nought() -> Self
        ensures { AtNought result }
    {
        Axis {
            count: 0,
            rest: 0,
            unit: 1,
        }
    }

    // The axis of a relative card, which stays: all of it is rest, so that nothing is added to a height after it is rounded.
    pub fn still(rest: u64, unit: u64) -> Self
        ensures within { Stays rest unit → AxisIs (whole rest) unit result }
        ensures all_rest { Stays rest unit → AllRest rest result }
        ensures beyond { ¬ Stays rest unit → AtNought result }
    {
        if rest > MOST_REST || !(1..=10).contains(&unit) {
            return Self::at_nought();
        }
        Axis {
            count: 0,
            rest,
            unit,
        }
    }

    // The axis of an absolute card, d mm from its start.
    pub fn surveyed(height: i32, grade: i32, d: u64, unit: u64) -> Self
        ensures within { Climbs height grade d unit → AxisIs (surveyed_axis height grade (whole d)) unit result }
        ensures beyond { ¬ Climbs height grade d unit → AtNought result }
    {
        if d > MOST_STATION {
            return Self::at_nought();
        }
        if !(1..=10).contains(&unit) {
            return Self::at_nought();
        }
        if !(-100000..=9000000).contains(&height) {
            return Self::at_nought();
        }
        if !(-80..=80).contains(&grade) {
            return Self::at_nought();
        }
        if !height.unsigned_abs().is_multiple_of(unit as u32) {
            return Self::at_nought();
        }
        Self::climbing(height, grade, d, unit)
    }

    // The same, where the numbers are within their bounds: the height is whole units, and grade times station is split by the unit, downwards.
    fn climbing(height: i32, grade: i32, d: u64, unit: u64) -> Self
        requires { Climbs height grade d unit }
        ensures { AxisIs (surveyed_axis height grade (whole d)) unit result }
    {
        let size = 1000 * unit;
        let run = i64::from(grade) * d as i64;
        let climb = floor_div(run, size);
        let rest = (run - climb * size as i64) as u64;
        let base = floor_div(i64::from(height), unit);
        let count = (base + climb) as i32;
        Axis { count, rest, unit }
    }

    // What stands (up - down) / over micrometres above the axis, in counts of the unit: the sum with the axis's rest is rounded once, and the
    // axis's whole units are added after. The three stay apart: a struct of them would be written out at each call.
    pub fn height(self, up: u64, down: u64, over: u64) -> i32
        ensures { result ≡ count_above self up down over }
    {
        let lifted = self.rest.wrapping_mul(over).wrapping_add(up);
        let near = height(lifted, down, over, self.unit);
        near + self.count
    }

    // The axis itself, in counts of the unit.
    pub fn number(self) -> i32
        ensures { result ≡ in_units self.unit (height_of self ⊕ ratio 0 0 1) }
    {
        self.height(0, 0, 1)
    }
}
