// The condition of the refusal 8.
ghost use Rattle.std.specs.Prelude.{◌≡◌, ◌≤◌};
ghost use Rattle.runoff.specs.Refusal.{too_steep};

use card::Profile;

// The products are taken in 64 bits; with the slopes that pass reason 5 no width or length overflows them.
pub(crate) fn is_too_steep(p: Profile, added: u32, slope: u32, clothoid: u32) -> bool
    requires { (p.crown_slope ≤ slope) × (slope ≤ 60) }
    ensures { result ≡ too_steep p added slope clothoid }
{
    let turned = u64::from(p.crown_slope) + u64::from(slope);
    let climb = u64::from(p.half_width) * turned;
    let allowed = u64::from(added) * u64::from(clothoid);
    climb > allowed
}
