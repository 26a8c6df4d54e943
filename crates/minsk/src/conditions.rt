// The conditions of the refusals 36, 37, 38 and 8.
ghost use Rattle.std.specs.Prelude.{◌≡◌, ◌≤◌};
ghost use Rattle.minsk_section.specs.Lines.{section_by, section_of};
ghost use Rattle.minsk.specs.Refusal.{not_for, too_long, not_placed, too_steep};
ghost use Rattle.minsk.specs.Reckoning.{widths_in};

use crate::widths::Widths;
use card::Card;

// A full slope of 20, a radius of 2000 or the profiles of category V: the method is not for these.
pub(crate) fn is_not_for(card: Card) -> bool
    ensures { result ≡ not_for card }
{
    let other = card.profile == 4 || card.profile == 5;
    card.full_slope == 20 || card.radius == 2000 || other
}

// A first stage longer than L × R / 2000: 2 × h × 20 / 5 mm is 16000 × h of those 2000ths.
pub(crate) fn is_too_long(widths: Widths, card: Card) -> bool
    ensures { result ≡ too_long (section_by (widths_in widths) card) }
{
    let first = 16000 * u64::from(widths.half);
    let end = u64::from(card.clothoid) * u64::from(card.radius);
    first > end
}

// A widening where R is above 500 or L × R / 500 is no whole mm.
pub(crate) fn is_not_placed(card: Card) -> bool
    ensures { result ≡ not_placed (section_of card) }
{
    let end = u64::from(card.clothoid) * u64::from(card.radius);
    let uneven = card.radius > 500 || end % 500 != 0;
    card.full_widening > 0 && uneven
}

// h × (v - 20) above added slope × (L - L × R / 2000), both taken 2000 times.
pub(crate) fn is_too_steep(widths: Widths, added: u32, card: Card) -> bool
    requires slope { (20 ≤ card.full_slope) × (card.full_slope ≤ 60) }
    requires length { (card.radius ≤ 2000) × (card.clothoid ≤ 300000) }
    ensures { result ≡ too_steep added (section_by (widths_in widths) card) }
{
    let turned = u64::from(card.full_slope) - 20;
    let climb = 2000 * (u64::from(widths.half) * turned);
    let left = u64::from(card.clothoid) * (2000 - u64::from(card.radius));
    let allowed = u64::from(added) * left;
    climb > allowed
}
