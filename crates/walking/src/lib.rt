// Numbers that are walked: the next value of each is made from the one before by adding, and carrying the remainder where it fills the divisor.
// Nothing is asked of a caller.
#![tactic(auto)]

ghost use Rattle.std.specs.Prelude.{◌≡◌, ◌≤◌, pos, negsuc};
ghost use Rattle.walking.specs.Mixed.{mixed, split_of, sum};
ghost use Rattle.walking.specs.Curves.{curve_of, lifted, stepped, number};

// Whole counts of a divisor, and a rest below it. The count is kept as 32 bits that wrap, so that what is added to it may be below nought.
#[derive(Clone, Copy)]
pub struct Mixed {
    pub count: u32,
    pub rest: u64,
}

// A whole number of either sign: up - down.
#[derive(Clone, Copy)]
pub struct Parts {
    pub up: u64,
    pub down: u64,
}

// A number that is walked: its value in a row, its rise to the next, and what the rise gains with each row, all over one divisor.
// A straight line has no bend.
#[derive(Clone, Copy)]
pub struct Curve {
    pub at: Mixed,
    pub rise: Mixed,
    pub bend: Mixed,
    pub over: u64,
}

impl Parts {
    // As whole counts of a divisor and a rest, downwards. A divisor of 0 leaves no count and no rest, so that this call, too, cannot fail. What is
    // below the divisor is not divided.
    #[tactic(auto, unfolding(crate::specs::Mixed::split_of))]
    pub fn split(self, over: u64) -> Mixed
        ensures { result ≡ split_of self over }
    {
        if over == 0 {
            return Mixed { count: 0, rest: 0 };
        }
        if self.down <= self.up {
            return split_up(self.up - self.down, over);
        }
        split_down(self.down - self.up - 1, over)
    }
}

// n as whole counts and a rest.
#[tactic(auto, using(crate::proofs::Counts::undivided), unfolding(crate::specs::Mixed::mixed))]
fn split_up(n: u64, over: u64) -> Mixed
    requires { 1 ≤ over }
    ensures { result ≡ mixed over (pos n) }
{
    if n < over {
        return Mixed { count: 0, rest: n };
    }
    let count = (n / over) % 4294967296;
    Mixed {
        count: count as u32,
        rest: n % over,
    }
}

// -1 - k likewise, rounded down.
#[tactic(auto, unfolding(crate::specs::Mixed::mixed))]
fn split_down(k: u64, over: u64) -> Mixed
    requires { 1 ≤ over }
    ensures { result ≡ mixed over (negsuc k) }
{
    let up = split_up(k, over);
    Mixed {
        count: u32::MAX - up.count,
        rest: over - 1 - up.rest,
    }
}

impl Mixed {
    // The sum, with at most one carry.
    #[tactic(auto, unfolding(crate::specs::Mixed::sum))]
    pub fn plus(self, other: Mixed, over: u64) -> Mixed
        ensures { result ≡ sum over self other }
    {
        let count = self.count.wrapping_add(other.count);
        let rest = self.rest.wrapping_add(other.rest);
        if rest < over {
            return Mixed { count, rest };
        }
        Mixed {
            count: count.wrapping_add(1),
            rest: rest - over,
        }
    }
}

impl Curve {
    // The curve with this value in a row, this rise to the next and this bend.
    #[tactic(auto, unfolding(crate::specs::Curves::curve_of))]
    pub fn new(at: Parts, rise: Parts, bend: Parts, over: u64) -> Self
        ensures { result ≡ curve_of at rise bend over }
    {
        Curve {
            at: at.split(over),
            rise: rise.split(over),
            bend: bend.split(over),
            over,
        }
    }

    // The same, so many whole counts higher.
    #[tactic(auto, unfolding(crate::specs::Curves::lifted))]
    pub fn lifted(self, counts: i32) -> Self
        ensures { result ≡ lifted counts self }
    {
        let at = Mixed {
            count: self.at.count.wrapping_add(counts.cast_unsigned()),
            rest: self.at.rest,
        };
        Curve { at, ..self }
    }

    // The curve of the next row: the value gains the rise, and the rise gains the bend.
    #[tactic(auto, unfolding(crate::specs::Curves::stepped))]
    pub fn next(self) -> Self
        ensures { result ≡ stepped self }
    {
        Curve {
            at: self.at.plus(self.rise, self.over),
            rise: self.rise.plus(self.bend, self.over),
            bend: self.bend,
            over: self.over,
        }
    }

    // Its value in whole counts, as 32 bits hold it.
    pub fn number(self) -> i32
        ensures { result ≡ number self }
    {
        self.at.count.cast_signed()
    }
}
