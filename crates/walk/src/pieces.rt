// From one row that is worked afresh to the next.
ghost use Rattle.std.specs.Prelude.{◌≡◌, ◌++◌, ◌+◌, ◌*◌, ◌-◌, ◌≤◌, ◌<◌, length, drop};
ghost use Rattle.card.specs.RowsInto.{with_rows};
ghost use Rattle.section.specs.Lines.{section_of};
ghost use Rattle.runoff.specs.Refusal.{refusal};
ghost use Rattle.runoff.specs.Runoff.{runoff_of};
ghost use Rattle.runoff.specs.Rows.{row_count, row_width, rows, station_of};
ghost use Rattle.walk.specs.Fresh.{Afresh, Counted};
ghost use Rattle.walk.specs.Turns.{turns_of, end_of, sooner};
ghost use Rattle.walk.specs.Gains.{climb_of, gains_in, outer_gain, Foots, Walks, rows_of};

use crate::afresh::{Footing, Gains, NONE, Start};
use crate::stepping::{Walker, walk_rows};
use crate::turns::{Spaced, Turns};
use card::{Card, Datum, station_of};
use heights::Axis;
use runoff::{ROW_WIDTH, Runoff, Stages, Station};
use walking::Parts;

// An accepted card, its runoff, how many rows it has, and where its pieces begin. The table stays apart, and its room is asked of it.
#[derive(Clone, Copy)]
struct Accepted {
    card: Card,
    runoff: Runoff,
    count: usize,
    turns: Turns,
    ghost passes: { refusal card ≡ 0 },
    ghost made: { runoff ≡ runoff_of card },
    ghost counted: { count ≡ row_count card },
    ghost turned: { turns ≡ turns_of card },
}

// The sooner of two rows, of which `row` counts only past row i.
fn sooner(i: usize, row: usize, end: usize) -> usize
    ensures { result ≡ sooner i row end }
{
    if i < row && row < end {
        return row;
    }
    end
}

// What an axis of this grade climbs until the next row.
fn climb_of(grade: i32, step: u32) -> Parts
    requires { step ≤ 20000 }
    ensures { result ≡ climb_of grade step }
{
    let climb = u64::from(grade.unsigned_abs()) * u64::from(step);
    if grade < 0 {
        return Parts { up: 0, down: climb };
    }
    Parts { up: climb, down: 0 }
}

impl Accepted {
    // The station of row i.
    fn station(self, i: usize) -> Station
        requires { i < self.count }
        ensures runoff { result.runoff ≡ self.runoff }
        ensures d { result.d ≡ station_of self.card i }
    {
        let d = station_of(self.card.clothoid, self.card.step, i as u32);
        Station {
            runoff: self.runoff,
            d,
        }
    }

    // What the outer slope gains until the next row, over its denominator at the station d.
    fn outer_gain(self, d: u64) -> u64
        requires { d ≤ 300000 }
        ensures { result ≡ outer_gain (section_of self.card) self.card.step d }
    {
        let r = self.runoff;
        let step = u64::from(self.card.step);
        match r.stages {
            Stages::Even => (r.crown_slope + r.full_slope) * step,
            Stages::TwoStage { num, den } if den * d <= num => 3 * step,
            Stages::TwoStage { den, .. } => den * (r.full_slope - r.crown_slope) * step,
        }
    }

    // What the lines gain from row i, which stands at d, until the next. A slope that has not turned yet stays, as does a shoulder that is kept.
    fn gains(self, i: usize, d: u64) -> Gains
        requires { d ≤ 300000 }
        ensures { result ≡ gains_in (turns_of self.card) (section_of self.card) self.card.step i d }
    {
        let outer = self.outer_gain(d);
        let inner = if i < self.turns.inner { 0 } else { outer };
        let shoulder = if i < self.turns.shoulder { 0 } else { inner };
        let widening = self.runoff.full_widening * u64::from(self.card.step);
        let lost = if i < self.turns.kept { widening } else { 0 };
        Gains {
            outer,
            inner,
            shoulder,
            widening,
            lost,
        }
    }

    // Where the axis stands at a station of the card, and what it climbs until the next row.
    fn footing(self, t: Station) -> Footing
        requires { (t.runoff ≡ self.runoff) × (t.d ≤ 300000) }
        ensures { Foots self.card t.d result }
    {
        let unit = u64::from(self.card.unit);
        match self.card.datum {
            Datum::Relative => Footing {
                axis: Axis::still(t.axis_height(), unit),
                climb: NONE,
            },
            Datum::Absolute { height, grade } => Footing {
                axis: Axis::surveyed(height, grade, t.d, unit),
                climb: climb_of(grade, self.card.step),
            },
        }
    }

    // Row i, worked afresh and counted: walked from there it gives the rows of its piece. Nothing but this works a row afresh, and none is but those
    // of the paper's list.
    fn begin(self, i: usize, fresh: &mut u32) -> Walker
        requires row { i < self.count }
        requires due { Afresh self.card i }
        requires few { fresh.old ≤ i }
        ensures walks { Walks self.card i result }
        ensures counted { fresh.new ≡ fresh.old + 1 }
    {
        *fresh += 1;
        let station = self.station(i);
        let start = Start {
            station,
            step: self.card.step,
            gains: self.gains(i, station.d),
            footing: self.footing(station),
        };
        start.walker()
    }

    // The first row past row i that begins a piece; past the last row, the count of rows.
    fn end_of(self, i: usize) -> usize
        requires { i < self.count }
        ensures { result ≡ end_of self.card i }
    {
        let t = self.turns;
        let last = self.count - 1;
        let end = if i < last { last } else { self.count };
        let end = sooner(i, t.joint, end);
        let end = sooner(i, t.inner, end);
        let end = sooner(i, t.shoulder, end);
        sooner(i, t.kept, end)
    }

    // Works row i afresh, walks to the end of its piece, and gives the row that begins the next.
    fn write_piece(self, i: usize, table: &mut [i32], fresh: &mut u32) -> usize
        requires row { i < self.count }
        requires due { Afresh self.card i }
        requires few { fresh.old ≤ i }
        requires room { row_width * self.count ≤ length table.old }
        ensures end { result ≡ end_of self.card i }
        ensures counted { fresh.new ≡ fresh.old + 1 }
        ensures rows { table.new ≡ with_rows row_width (rows_of self.card) i (end_of self.card i - i) table.old }
    {
        let from = self.begin(i, fresh);
        let end = self.end_of(i);
        walk_rows(from, &mut table[ROW_WIDTH * i..ROW_WIDTH * end]);
        end
    }

    // Writes all rows, and says how many were worked afresh.
    fn write_rows(self, table: &mut [i32]) -> u32
        requires { row_width * self.count ≤ length table.old }
        ensures rows { table.new ≡ rows self.card ++ drop (row_width * row_count self.card) table.old }
        ensures fresh { Counted (Afresh self.card) (row_count self.card) result }
    {
        let mut fresh: u32 = 0;
        let mut i: usize = 0;
        while i < self.count {
            i = self.write_piece(i, table, &mut fresh);
        }
        fresh
    }
}

// Writes the rows of an accepted card into a table that has room for them, and says how many were worked afresh.
pub(crate) fn write_rows(card: Card, r: Runoff, count: usize, table: &mut [i32]) -> u32
    requires card_value { (refusal card ≡ 0) × (r ≡ runoff_of card) }
    requires count_value { (count ≡ row_count card) × (row_width * count ≤ length table.old) }
    ensures rows { table.new ≡ rows card ++ drop (row_width * row_count card) table.old }
    ensures fresh { Counted (Afresh card) (row_count card) result }
{
    let spaced = Spaced {
        runoff: r,
        step: card.step,
        last: count - 1,
    };
    let accepted = Accepted {
        card,
        runoff: r,
        count,
        turns: spaced.turns(),
    };
    accepted.write_rows(table)
}
