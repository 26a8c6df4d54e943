// Why a card is refused, and what every refusal has: the number by which the papers know it.
ghost use Rattle.std.specs.Prelude.{◌≡◌, ℕ};
ghost use Rattle.card.specs.Told.{refusal_number, told};

// A refusal, of a card, a book or a list, has a number of the papers. Each enum casts itself: generic code cannot.
pub trait Numbered {
    ghost numbered: { Self → ℕ };

    fn number(self) -> u32
        ensures { result ≡ numbered self };
}

// The reasons to refuse a card, by the trade's word for each. 7, the narrow shoulder, is no longer given; 36 to 38 are the handbook's method's own.
#[derive(Clone, Copy, Debug, PartialEq, Eq)]
pub enum Refusal {
    Profile = 1,
    Terrain = 2,
    Radius = 3,
    Clothoid = 4,
    FullSlope = 5,
    Widening = 6,
    AddedSlope = 8,
    Step = 9,
    Unit = 10,
    ShortTable = 11,
    Height = 34,
    Grade = 35,
    Method = 36,
    FirstStage = 37,
    WideningPlace = 38,
}

impl Numbered for Refusal {
    ghost numbered = { refusal_number };

    fn number(self) -> u32 {
        self as u32
    }
}

// A plain number of the papers.
impl Numbered for u32 {
    ghost numbered = { λ number. number };

    fn number(self) -> u32 {
        self
    }
}

// An answer in the papers' numbers: 0 and its count, or the refusal's number and 0.
pub fn in_numbers<E: Numbered>(answer: Result<u32, E>) -> (u32, u32)
    ensures number { result.0 ≡ (told E.numbered answer).number }
    ensures count { result.1 ≡ (told E.numbered answer).count }
{
    match answer {
        Ok(count) => (0, count),
        Err(refusal) => (refusal.number(), 0),
    }
}
