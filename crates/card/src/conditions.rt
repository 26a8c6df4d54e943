// The conditions of the refusals that are longer than one comparison.
ghost use Rattle.std.specs.Prelude.{◌≡◌, ◌≤◌};
ghost use Rattle.card.specs.Words.{neither};
ghost use Rattle.card.specs.Reasons.{too_wide, wrong_height};

// n is neither a nor b.
pub(crate) fn is_neither(n: u32, a: u32, b: u32) -> bool
    ensures { result ≡ neither n a b }
{
    n != a && n != b
}

pub(crate) fn is_too_wide(widening: u32, radius: u32) -> bool
    ensures { result ≡ too_wide widening radius }
{
    widening > 3500 || widening > 0 && radius > 1000
}

// The height is out of bounds, or no whole number of units. The unit's bounds are asked by this and its one caller: a type of its own would be
// made there for this call.
pub(crate) fn is_wrong_height(height: i32, unit: u32) -> bool
    requires { (1 ≤ unit) × (unit ≤ 10) }
    ensures { result ≡ wrong_height unit height }
{
    !(-100000..=9000000).contains(&height) || height % unit as i32 != 0
}
