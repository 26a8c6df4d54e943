// The one place where a number is rounded: a signed 64-bit numerator, divided downwards once, to an i32; and the division alone.
#![tactic(auto)]

ghost use Rattle.std.specs.Prelude.{◌≡◌, ◌*◌, ◌≤◌, ◌<◌};
ghost use Rattle.std.specs.Int.Signed.{mag};
ghost use Rattle.exact.specs.Rounding.{floor_div, rounded, taken};
ghost use Rattle.rounding.specs.Nearest.{tie_of, most_over, Roundable, nearest_of, most_divisor, floor_of};

// Where a number halfway between two counts goes.
#[derive(Clone, Copy)]
pub enum Tie {
    Lower,
    Higher,
}

// The greatest denominator, 2^38.
const MOST_OVER: u64 = 274877906944;

// How far from nought a number may lie, in micrometres: 2^22.
const REACH: u64 = 4194304;

// The greatest divisor, the greatest number of 63 bits.
const MOST_DIVISOR: u64 = 9223372036854775807;

// a / m rounded down. Below nought -1 - a is divided, so that each division is of a number that is not below nought.
fn divided_down(a: i64, m: u64) -> i64
    requires { (0 < m) × (m ≤ most_divisor) }
    ensures { result ≡ floor_div a m }
{
    let d = m as i64;
    if a < 0 { -1 - (-1 - a) / d } else { a / d }
}

// a / m rounded down, for a divisor from 1 to the greatest i64; else 0, and no Option: a call that could not fail still cannot.
pub fn floor_div(a: i64, m: u64) -> i64
    ensures { result ≡ floor_of a m }
{
    if m == 0 {
        return 0;
    }
    if m > MOST_DIVISOR {
        return 0;
    }
    divided_down(a, m)
}

// What the rule takes off the numerator.
fn taken_off(tie: Tie) -> u64
    ensures { result ≡ taken (tie_of tie) }
{
    match tie {
        Tie::Lower => 1,
        Tie::Higher => 0,
    }
}

// The division, within the sizes. A unit is an even number of micrometres, so that half of it is whole and nothing is doubled.
fn divided(num: i64, den: u64, unit: u64, tie: Tie) -> i32
    requires { Roundable num den unit }
    ensures { result ≡ rounded (tie_of tie) (1000 * unit) (record { num = num; den = den }) }
{
    let part = 500 * unit;
    let half = den * part;
    let off = taken_off(tie);
    let rest = (half - off) as i64;
    let lifted = num + rest;
    let whole = 2 * half;
    let count = divided_down(lifted, whole);
    count as i32
}

// The same where only the size is left to test, which is num, or -1 - num below nought: beyond reach the answer is 0. The unit's bounds are
// asked here alone.
fn within_reach(num: i64, size: u64, den: u64, unit: u64, tie: Tie) -> i32
    requires { (size ≡ mag num) × (den ≤ most_over) × (1 ≤ unit) × (unit ≤ 10) }
    ensures { result ≡ nearest_of (tie_of tie) unit num den }
{
    let reach = REACH * den;
    if size < reach {
        divided(num, den, unit, tie)
    } else {
        0
    }
}

// num / den micrometres in counts of the unit, which is in mm: the nearest count, and of two the one that the rule takes.
// Beyond the sizes that 64 bits take it is 0, and no Option: a call that could not fail still cannot. The four stay apart: a struct of them
// would be made by each caller and taken apart here. Each sign has its own test of the size, which is quicker than one for both.
pub fn nearest(num: i64, den: u64, unit: u64, tie: Tie) -> i32
    ensures { result ≡ nearest_of (tie_of tie) unit num den }
{
    if den > MOST_OVER {
        return 0;
    }
    if unit == 0 {
        return 0;
    }
    if unit > 10 {
        return 0;
    }
    if num < 0 {
        let below = (-1 - num) as u64;
        within_reach(num, below, den, unit, tie)
    } else {
        let above = num as u64;
        within_reach(num, above, den, unit, tie)
    }
}
