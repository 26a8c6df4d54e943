// The widths of the method's three categories.
ghost use Rattle.std.specs.Prelude.{◌≡◌};
ghost use Rattle.minsk_section.specs.Widths.{widths_at};
ghost use Rattle.minsk.specs.Reckoning.{widths_in};

// The widths of a category, in mm: half the carriageway, the shoulder with its strip, the strip alone, and the least that a widening leaves of
// the inner shoulder with its strip.
#[derive(Clone, Copy, Default)]
pub(crate) struct Widths {
    pub half: u32,
    pub shoulder: u32,
    pub strip: u32,
    pub least: u32,
}

// II, III and IV.
const WIDTHS: [Widths; 3] = [
    Widths {
        half: 3500,
        shoulder: 3000,
        strip: 750,
        least: 1500,
    },
    Widths {
        half: 3500,
        shoulder: 2500,
        strip: 500,
        least: 1500,
    },
    Widths {
        half: 3000,
        shoulder: 2000,
        strip: 500,
        least: 1000,
    },
];

// The widths by the number of the profile: 1 is II, 2 is III, 3 is IV; any other has widths of nought.
pub(crate) fn widths_at(profile: u32) -> Widths
    ensures { widths_in result ≡ widths_at profile }
{
    if !(1..=3).contains(&profile) {
        return Widths::default();
    }
    let i = (profile - 1) as usize;
    WIDTHS[i]
}
