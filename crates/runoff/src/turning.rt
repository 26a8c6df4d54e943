// The slopes at a station, over one denominator, in natural numbers.
ghost use Rattle.std.specs.Prelude.{◌≡◌, ◌+◌, ◌*◌, ◌≤◌, ◌<◌};
ghost use Rattle.section.specs.Lines.{axis_height};
ghost use Rattle.runoff.specs.Reckoning.{section_in, Limits, slope_parts, slopes_parts};

use crate::{Runoff, Stages};
use heights::at_least;

// A slope in per mille: (up - down) / over.
#[derive(Clone, Copy)]
pub struct Slope {
    pub up: u64,
    pub down: u64,
    pub over: u64,
}

// What the heights at a station are reckoned from: the outer slope, and those of the inner lane and of its shoulder over the same denominator.
#[derive(Clone, Copy)]
pub struct Slopes {
    pub outer: Slope,
    pub inner: u64,
    pub shoulder: u64,
}

// A station of a runoff, d mm from its start.
#[derive(Clone, Copy)]
pub struct Station {
    pub runoff: Runoff,
    pub d: u64,
    ghost limits: { Limits runoff },
    ghost within: { d ≤ runoff.clothoid },
}

impl Station {
    // In a straight line from -p at 0 to v at L.
    fn even_slope(self) -> Slope
        requires { 3 * self.runoff.clothoid ≤ self.runoff.half_width * (self.runoff.crown_slope + self.runoff.full_slope) }
        ensures { result ≡ slope_parts (section_in self.runoff) self.d }
    {
        let r = self.runoff;
        Slope {
            up: (r.crown_slope + r.full_slope) * self.d,
            down: r.crown_slope * r.clothoid,
            over: r.clothoid,
        }
    }

    // The outer edge climbs at 3 per mille.
    fn first_slope(self) -> Slope
        requires two_stage { self.runoff.half_width * (self.runoff.crown_slope + self.runoff.full_slope) < 3 * self.runoff.clothoid }
        requires first { 3 * self.d ≤ 2 * self.runoff.half_width * self.runoff.crown_slope }
        ensures { result ≡ slope_parts (section_in self.runoff) self.d }
    {
        let r = self.runoff;
        Slope {
            up: 3 * self.d,
            down: r.crown_slope * r.half_width,
            over: r.half_width,
        }
    }

    // In a straight line from p at the joint, num / den, to v at L.
    fn second_slope(self, num: u64, den: u64) -> Slope
        requires two_stage { self.runoff.half_width * (self.runoff.crown_slope + self.runoff.full_slope) < 3 * self.runoff.clothoid }
        requires second { 2 * self.runoff.half_width * self.runoff.crown_slope < 3 * self.d }
        requires joint { (num ≡ 2 * self.runoff.half_width * self.runoff.crown_slope) × (den ≡ 3) }
        ensures { result ≡ slope_parts (section_in self.runoff) self.d }
    {
        let r = self.runoff;
        let run = den * r.clothoid - num;
        let past = den * self.d - num;
        let turned = r.full_slope - r.crown_slope;
        Slope {
            up: r.crown_slope * run + turned * past,
            down: 0,
            over: run,
        }
    }

    // The outer slope. The joint is compared as a fraction and never rounded.
    fn outer_slope(self) -> Slope
        ensures { result ≡ slope_parts (section_in self.runoff) self.d }
    {
        match self.runoff.stages {
            Stages::Even => self.even_slope(),
            Stages::TwoStage { num, den } if den * self.d <= num => self.first_slope(),
            Stages::TwoStage { num, den } => self.second_slope(num, den),
        }
    }

    // Every slope: the inner lane is not turned before the outer slope is p, nor the shoulder before it is q.
    pub fn slopes(self) -> Slopes
        ensures { result ≡ slopes_parts (section_in self.runoff) self.d }
    {
        let r = self.runoff;
        let outer = self.outer_slope();
        let inner = at_least(r.crown_slope * outer.over, outer.up, outer.down);
        let shoulder = at_least(r.shoulder_slope * outer.over, inner, 0);
        Slopes {
            outer,
            inner,
            shoulder,
        }
    }

    // How high the axis of a relative card stays, in micrometres.
    pub fn axis_height(self) -> u64
        ensures { result ≡ axis_height (section_in self.runoff) }
    {
        let r = self.runoff;
        r.shoulder_width * r.shoulder_slope + r.half_width * r.crown_slope
    }
}
