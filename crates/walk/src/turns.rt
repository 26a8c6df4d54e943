// The rows at which a piece begins: the first past the stage joint, and the first past each change of sides.
ghost use Rattle.std.specs.Prelude.{◌≡◌, ◌+◌, ◌*◌, ◌≤◌, ◌<◌};
ghost use Rattle.runoff.specs.Reckoning.{section_in, Limits};
ghost use Rattle.changes.specs.Rules.{inner_slope_rule, shoulder_slope_rule, inner_shoulder_rule};
ghost use Rattle.walk.specs.Turns.{row_past, joint_turn, turn, turns_in};

use runoff::{Runoff, Stages};

// A runoff whose rows stand `step` mm apart, of which row `last` is at its end.
#[derive(Clone, Copy)]
pub(crate) struct Spaced {
    pub runoff: Runoff,
    pub step: u32,
    pub last: usize,
    ghost limits: { Limits runoff },
    ghost steeper: { runoff.crown_slope < runoff.shoulder_slope },
    ghost wider: { runoff.least_shoulder < runoff.shoulder_width },
    ghost apart: { 1 ≤ step },
    ghost near: { step ≤ 20000 },
}

// The first row past each; the last row where there is none.
#[derive(Clone, Copy)]
pub(crate) struct Turns {
    pub joint: usize,
    pub inner: usize,
    pub shoulder: usize,
    pub kept: usize,
}

impl Spaced {
    // The first row past the station num / den, at most the last: past it strictly, so that a row on it is not yet.
    fn row_past(self, num: u64, den: u64) -> usize
        requires { (1 ≤ den) × (num ≤ 1000000000000) }
        ensures { result ≡ row_past num den self.step self.last }
    {
        let from = num / den + 1;
        let row = from.div_ceil(u64::from(self.step));
        self.last.min(row as usize)
    }

    // Past the joint of two stages.
    fn joint_turn(self) -> usize
        ensures { result ≡ joint_turn (section_in self.runoff) self.step self.last }
    {
        match self.runoff.stages {
            Stages::Even => self.last,
            Stages::TwoStage { num, den } => self.row_past(num, den),
        }
    }

    // Past the station where the outer slope is p: in two stages that is the joint.
    fn inner_turn(self) -> usize
        ensures { result ≡ turn inner_slope_rule (section_in self.runoff) self.step self.last }
    {
        let r = self.runoff;
        if r.full_slope <= r.crown_slope {
            return self.last;
        }
        match r.stages {
            Stages::Even => {
                let num = 2 * r.crown_slope * r.clothoid;
                self.row_past(num, r.crown_slope + r.full_slope)
            }
            Stages::TwoStage { num, den } => self.row_past(num, den),
        }
    }

    // Past the station where the inner slope is q.
    fn shoulder_turn(self) -> usize
        ensures { result ≡ turn shoulder_slope_rule (section_in self.runoff) self.step self.last }
    {
        let r = self.runoff;
        if r.full_slope <= r.shoulder_slope {
            return self.last;
        }
        match r.stages {
            Stages::Even => {
                let num = (r.crown_slope + r.shoulder_slope) * r.clothoid;
                self.row_past(num, r.crown_slope + r.full_slope)
            }
            Stages::TwoStage { num, den } => {
                let run = den * r.clothoid - num;
                let turned = r.full_slope - r.crown_slope;
                let past = (r.shoulder_slope - r.crown_slope) * run;
                self.row_past(num * turned + past, den * turned)
            }
        }
    }

    // Past the station where the widening leaves m of the shoulder.
    fn kept_turn(self) -> usize
        ensures { result ≡ turn inner_shoulder_rule (section_in self.runoff) self.step self.last }
    {
        let r = self.runoff;
        if r.least_shoulder + r.full_widening <= r.shoulder_width {
            return self.last;
        }
        self.row_past(
            (r.shoulder_width - r.least_shoulder) * r.clothoid,
            r.full_widening,
        )
    }

    // All four, once a card.
    pub(crate) fn turns(self) -> Turns
        ensures { result ≡ turns_in (section_in self.runoff) self.step self.last }
    {
        Turns {
            joint: self.joint_turn(),
            inner: self.inner_turn(),
            shoulder: self.shoulder_turn(),
            kept: self.kept_turn(),
        }
    }
}
