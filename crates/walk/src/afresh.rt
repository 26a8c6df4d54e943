// A row worked afresh, as numbers that are walked from there: their values, what they gain until the next row, and what that gains.
ghost use Rattle.std.specs.Prelude.{◌≡◌, ◌+◌, ◌*◌, ◌≤◌};
ghost use Rattle.exact.specs.Rounding.{taken};
ghost use Rattle.card.specs.Rows.{tie};
ghost use Rattle.walk.specs.Bounds.{Bounded};

use crate::stepping::Walker;
use card::tie_of;
use heights::{Axis, at_least};
use rounding::Tie;
use runoff::{Slopes, Station};
use walking::{Curve, Parts};

// Nothing, as parts.
pub(crate) const NONE: Parts = Parts { up: 0, down: 0 };

// Where the axis stands in a row, and what it climbs until the next, in micrometres.
#[derive(Clone, Copy)]
pub(crate) struct Footing {
    pub axis: Axis,
    pub climb: Parts,
    ghost up_most: { climb.up ≤ 1600000 },
    ghost down_most: { climb.down ≤ 1600000 },
}

// What is gained until the next row: by the outer slope, the inner one and the shoulder's over their denominator, by the widening over the clothoid's
// length; and what the inner shoulder loses over that.
#[derive(Clone, Copy)]
pub(crate) struct Gains {
    pub outer: u64,
    pub inner: u64,
    pub shoulder: u64,
    pub widening: u64,
    pub lost: u64,
}

// The two heights of one side of the road.
#[derive(Clone, Copy)]
pub(crate) struct Curves {
    pub brow: Curve,
    pub edge: Curve,
}

// What rounding to the lower takes off where a value is halfway.
fn taken(unit: u64) -> u64
    ensures { result ≡ taken (tie unit) }
{
    match tie_of(unit) {
        Tie::Lower => 1,
        Tie::Higher => 0,
    }
}

impl Footing {
    ghost use Rattle.walk.specs.Bounds.{Raised};
    ghost use Rattle.walk.specs.Gains.{height_curve, parts};

    // What stands at / over micrometres above the axis, with its rise and bend above it, in counts of the axis's unit: the axis's rest is rounded with it,
    // its whole units are added after.
    #[tactic(auto, unfolding(crate::specs::Gains::height_curve))]
    fn curve(self, at: Parts, rise: Parts, bend: Parts, over: u64) -> Curve
        requires { Raised at rise bend over }
        ensures { result ≡ height_curve self at rise bend over }
    {
        let whole = over * (1000 * self.axis.unit);
        let value = Parts {
            up: 2 * (self.axis.rest * over + at.up) + whole,
            down: 2 * at.down + taken(self.axis.unit),
        };
        let risen = Parts {
            up: 2 * (self.climb.up * over + rise.up),
            down: 2 * (self.climb.down * over + rise.down),
        };
        let bent = Parts {
            up: 2 * bend.up,
            down: 2 * bend.down,
        };
        Curve::new(value, risen, bent, 2 * whole).lifted(self.axis.count)
    }

    // The same of what stands at / over below the axis, and falls.
    fn below(self, at: u64, rise: u64, bend: u64, over: u64) -> Curve
        requires { Raised (parts 0 at) (parts 0 rise) (parts 0 bend) over }
        ensures { result ≡ height_curve self (parts 0 at) (parts 0 rise) (parts 0 bend) over }
    {
        let at = Parts { up: 0, down: at };
        let rise = Parts { up: 0, down: rise };
        let bend = Parts { up: 0, down: bend };
        self.curve(at, rise, bend, over)
    }
}

// A row that is worked afresh: where it stands, what its lines gain until the next, and where its axis does.
#[derive(Clone, Copy)]
pub(crate) struct Start {
    pub station: Station,
    pub step: u32,
    pub gains: Gains,
    pub footing: Footing,
    ghost bounded: { Bounded station gains },
}

impl Start {
    ghost use Rattle.runoff.specs.Reckoning.{section_in, slopes_parts};
    ghost use Rattle.walk.specs.Gains.{inner_curves, outer_curve, outer_curves, walker_by, widening_curve};

    // A width times the outer slope, above the axis.
    fn outer_curve(self, width: u64, s: Slopes) -> Curve
        requires slopes { s ≡ slopes_parts (section_in self.station.runoff) self.station.d }
        requires narrow { width ≤ 7500 }
        ensures { result ≡ outer_curve self.footing width self.gains s }
    {
        let at = Parts {
            up: width * s.outer.up,
            down: width * s.outer.down,
        };
        let rise = Parts {
            up: width * self.gains.outer,
            down: 0,
        };
        self.footing.curve(at, rise, NONE, s.outer.over)
    }

    // The half carriageway's, and that of the shoulder with it.
    fn outer_curves(self, s: Slopes) -> Curves
        requires { s ≡ slopes_parts (section_in self.station.runoff) self.station.d }
        ensures { result ≡ outer_curves self.footing (section_in self.station.runoff) self.gains s }
    {
        let h = self.station.runoff.half_width;
        let c = self.station.runoff.shoulder_width;
        Curves {
            brow: self.outer_curve(h + c, s),
            edge: self.outer_curve(h, s),
        }
    }

    // The widened lane times the inner slope, and what is kept of the shoulder times its slope too, below the axis: each is a product of two straight
    // lines, which gains the gain of the one times the other, and the other way round, and both gains' product.
    fn inner_curves(self, s: Slopes) -> Curves
        requires { s ≡ slopes_parts (section_in self.station.runoff) self.station.d }
        ensures { result ≡ inner_curves self.footing (section_in self.station.runoff) self.gains s self.station.d }
    {
        let r = self.station.runoff;
        let g = self.gains;
        let widening = r.full_widening * self.station.d;
        let wide = r.half_width * r.clothoid + widening;
        let lane = wide * s.inner;
        let lane_rise = wide * g.inner + g.widening * (s.inner + g.inner);
        let lane_bend = 2 * (g.widening * g.inner);
        let kept = at_least(
            r.least_shoulder * r.clothoid,
            r.shoulder_width * r.clothoid,
            widening,
        );
        let side = lane + kept * s.shoulder;
        let rise = Parts {
            up: g.lost * (s.shoulder + g.shoulder),
            down: lane_rise + kept * g.shoulder,
        };
        let bend = Parts {
            up: 2 * (g.lost * g.shoulder),
            down: lane_bend,
        };
        let full = r.clothoid * s.outer.over;
        Curves {
            brow: self
                .footing
                .curve(Parts { up: 0, down: side }, rise, bend, full),
            edge: self.footing.below(lane, lane_rise, lane_bend, full),
        }
    }

    // The widening, which is no height: it counts from nought.
    fn widening_curve(self) -> Curve
        ensures { result ≡ widening_curve self.footing.axis.unit (section_in self.station.runoff) self.gains self.station.d }
    {
        let level = Footing {
            axis: Axis {
                count: 0,
                rest: 0,
                unit: self.footing.axis.unit,
            },
            climb: NONE,
        };
        let r = self.station.runoff;
        let at = Parts {
            up: 1000 * (r.full_widening * self.station.d),
            down: 0,
        };
        let rise = Parts {
            up: 1000 * self.gains.widening,
            down: 0,
        };
        level.curve(at, rise, NONE, r.clothoid)
    }

    // The row, as numbers that are walked from here.
    pub(crate) fn walker(self) -> Walker
        ensures { result ≡ walker_by self.footing (section_in self.station.runoff) self.gains self.station.d self.step }
    {
        let s = self.station.slopes();
        let inner = self.inner_curves(s);
        let outer = self.outer_curves(s);
        Walker {
            station: self.station.d as u32,
            step: self.step,
            widening: self.widening_curve(),
            inner_brow: inner.brow,
            inner_edge: inner.edge,
            axis: self.footing.curve(NONE, NONE, NONE, 1),
            outer_edge: outer.edge,
            outer_brow: outer.brow,
        }
    }
}
