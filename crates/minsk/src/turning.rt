// The slopes and the widening at a station, each over one denominator, in natural numbers.
ghost use Rattle.std.specs.Prelude.{◌≡◌, ◌+◌, ◌*◌, ◌-◌, ◌≤◌};
ghost use Rattle.minsk.specs.Reckoning.{section_in, Limits, SlopeIs, SlopesAt, WideIs};

use crate::runoff::{GROWS, Runoff};
use heights::at_least;

// A slope in per mille: (up - down) / over.
#[derive(Clone, Copy)]
pub(crate) struct Slope {
    pub up: u64,
    pub down: u64,
    pub over: u64,
}

// What the heights at a station are reckoned from: the outer slope, and those of the inner lane and of its shoulder over the same denominator.
#[derive(Clone, Copy)]
pub(crate) struct Slopes {
    pub outer: Slope,
    pub inner: u64,
    pub shoulder: u64,
}

// A station of a runoff, d mm from its start.
#[derive(Clone, Copy)]
pub(crate) struct Station {
    pub runoff: Runoff,
    pub d: u64,
    ghost limits: { Limits runoff },
    ghost within: { d ≤ runoff.clothoid },
}

impl Station {
    // In the first stage, `past` / per mm from its start: the outer edge climbs at 5 per mille from the crown.
    fn first_slope(self, past: u64) -> Slope
        requires past { self.runoff.stage.per * self.d ≡ self.runoff.stage.end - 8 * (self.runoff.half_width * self.runoff.stage.per) + past }
        requires first { self.runoff.stage.per * self.d ≤ self.runoff.stage.end }
        ensures { SlopeIs (section_in self.runoff) self.d result }
    {
        let lane = self.runoff.half_width * self.runoff.stage.per;
        Slope {
            up: 5 * past,
            down: 20 * lane,
            over: lane,
        }
    }

    // Past it, `past` / per mm from its end: in a straight line from 20 per mille to the full slope at L.
    fn second_slope(self, past: u64) -> Slope
        requires { self.runoff.stage.per * self.d ≡ self.runoff.stage.end + past }
        ensures { SlopeIs (section_in self.runoff) self.d result }
    {
        let r = self.runoff;
        let run = r.stage.per * r.clothoid - r.stage.end;
        let turned = r.full_slope - 20;
        Slope {
            up: 20 * run + turned * past,
            down: 0,
            over: run,
        }
    }

    // The outer slope: crowned before the first stage. The stages' ends are compared as fractions and never rounded.
    fn outer_slope(self) -> Slope
        ensures { SlopeIs (section_in self.runoff) self.d result }
    {
        let r = self.runoff;
        let far = r.stage.per * self.d;
        let start = r.stage.end - 8 * (r.half_width * r.stage.per);
        if far <= start {
            return Slope {
                up: 0,
                down: 20,
                over: 1,
            };
        }
        if far <= r.stage.end {
            return self.first_slope(far - start);
        }
        self.second_slope(far - r.stage.end)
    }

    // Every slope: the inner lane is not turned before the outer slope is 20 per mille, nor the shoulder beyond the strip before it is 40.
    pub(crate) fn slopes(self) -> Slopes
        ensures { SlopesAt (section_in self.runoff) self.d result }
    {
        let outer = self.outer_slope();
        let inner = at_least(20 * outer.over, outer.up, outer.down);
        let shoulder = at_least(40 * outer.over, inner, 0);
        Slopes {
            outer,
            inner,
            shoulder,
        }
    }

    // The widening, over the growth's denominator: none up to its start, and all of it from its end on.
    pub(crate) fn widening(self) -> u64
        ensures { WideIs (section_in self.runoff) self.d result self.runoff.growth.over }
    {
        let grown = self.d.saturating_sub(self.runoff.growth.start).min(GROWS);
        self.runoff.full_widening * grown
    }
}
