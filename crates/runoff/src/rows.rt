// The rows of a table: their seven numbers, and how they are written.
ghost use Rattle.std.specs.Prelude.{◌≡◌, ◌++◌, ◌+◌, ◌*◌, ◌-◌, ◌≤◌, length, drop};
ghost use Rattle.exact.specs.Exact.{whole, ◌⊗◌};
ghost use Rattle.card.specs.Rows.{in_units, station_to};
ghost use Rattle.card.specs.RowsInto.{with_rows};
ghost use Rattle.section.specs.Lines.{widening};
ghost use Rattle.runoff.specs.Refusal.{refusal};
ghost use Rattle.runoff.specs.Runoff.{runoff_of};
ghost use Rattle.runoff.specs.Rows.{cells, row_count, row_width, rows};
ghost use Rattle.runoff.specs.Reckoning.{section_in, SlopesAt, inner_sides, outer_sides, row_on, rows_on};

use crate::turning::{Slopes, Station};
use crate::{ROW_WIDTH, Runoff};
use card::{Card, Datum, station_of};
use heights::{Axis, at_least, height};

// A row: the station in mm, the others in counts of the unit.
#[derive(Clone, Copy)]
pub(crate) struct Row {
    pub station: i32,
    pub widening: i32,
    pub inner_brow: i32,
    pub inner_edge: i32,
    pub axis: i32,
    pub outer_edge: i32,
    pub outer_brow: i32,
}

// The two heights of one side of the road.
#[derive(Clone, Copy)]
pub(crate) struct Sides {
    pub brow: i32,
    pub edge: i32,
}

// An accepted card, its runoff and how many rows it has. The table stays apart, and its room is asked of it: a struct that held it would be made
// for one call.
#[derive(Clone, Copy)]
struct Accepted {
    card: Card,
    runoff: Runoff,
    count: usize,
    ghost passes: { refusal card ≡ 0 },
    ghost made: { runoff ≡ runoff_of card },
    ghost counted: { count ≡ row_count card },
}

impl Station {
    // The half carriageway, and the shoulder too, times the outer slope, above the axis.
    fn outer_sides(self, s: Slopes, axis: Axis) -> Sides
        requires { SlopesAt (section_in self.runoff) self.d s }
        ensures { result ≡ outer_sides axis (section_in self.runoff) self.d }
    {
        let h = self.runoff.half_width;
        let c = self.runoff.shoulder_width;
        let up = s.outer.up;
        let down = s.outer.down;
        let over = s.outer.over;
        let edge = axis.height(h * up, h * down, over);
        let w = h + c;
        let brow = axis.height(w * up, w * down, over);
        Sides { brow, edge }
    }

    // The widened lane times the inner slope, and what is kept of the shoulder, at least m, times its slope too, below the axis.
    fn inner_sides(self, s: Slopes, axis: Axis) -> Sides
        requires { SlopesAt (section_in self.runoff) self.d s }
        ensures { result ≡ inner_sides axis (section_in self.runoff) self.d }
    {
        let h = self.runoff.half_width;
        let c = self.runoff.shoulder_width;
        let m = self.runoff.least_shoulder;
        let l = self.runoff.clothoid;
        let widening = self.runoff.full_widening * self.d;
        let full = l * s.outer.over;
        let lane = (h * l + widening) * s.inner;
        let edge = axis.height(0, lane, full);
        let kept = at_least(m * l, c * l, widening);
        let side = kept * s.shoulder;
        let brow = axis.height(0, lane + side, full);
        Sides { brow, edge }
    }

    // The widening in counts of the axis's unit. A road that is not widened has none, so that nothing is divided.
    fn widening(self, axis: Axis) -> i32
        ensures { result ≡ in_units axis.unit (whole 1000 ⊗ widening (section_in self.runoff) (whole self.d)) }
    {
        let w = self.runoff.full_widening;
        if w == 0 {
            return 0;
        }
        height(1000 * (w * self.d), 0, self.runoff.clothoid, axis.unit)
    }

    // The row, where the axis stands at `axis`, and at this count of units.
    fn row(self, axis: Axis, number: i32) -> Row
        ensures { result ≡ row_on axis number (section_in self.runoff) self.d }
    {
        let s = self.slopes();
        let inner = self.inner_sides(s, axis);
        let outer = self.outer_sides(s, axis);
        Row {
            station: self.d as i32,
            widening: self.widening(axis),
            inner_brow: inner.brow,
            inner_edge: inner.edge,
            axis: number,
            outer_edge: outer.edge,
            outer_brow: outer.brow,
        }
    }
}

impl Row {
    // Its seven numbers, as they stand in a table.
    fn cells(self) -> [i32; ROW_WIDTH]
        ensures { result ≡ cells self }
    {
        [
            self.station,
            self.widening,
            self.inner_brow,
            self.inner_edge,
            self.axis,
            self.outer_edge,
            self.outer_brow,
        ]
    }
}

impl Accepted {
    // The station of row i.
    fn station(self, i: u32) -> Station
        ensures runoff { result.runoff ≡ self.runoff }
        ensures d { result.d ≡ station_to self.card.clothoid self.card.step i }
    {
        let d = station_of(self.card.clothoid, self.card.step, i);
        Station {
            runoff: self.runoff,
            d,
        }
    }

    // Writes the rows from `first` up to `end` of a table that has them, where the axis stands at `axis`, and at this count of units.
    fn write_on(self, axis: Axis, number: i32, first: usize, end: usize, table: &mut [i32])
        requires { (first ≤ end) × (end ≤ self.count) × (row_width * end ≤ length table.old) }
        ensures { table.new ≡ with_rows row_width (rows_on axis number (section_in self.runoff) self.card.clothoid self.card.step) first (end - first) table.old }
    {
        for i in first..end {
            let row = self.station(i as u32).row(axis, number);
            let at = ROW_WIDTH * i;
            table[at..at + ROW_WIDTH].copy_from_slice(&row.cells());
        }
    }

    // Writes the rows of a relative card: its axis stays, so that its count of units is reckoned once for a table.
    fn write_relative(self, table: &mut [i32])
        requires datum { self.card.datum ≡ Datum.Relative }
        requires room { row_width * self.count ≤ length table.old }
        ensures { table.new ≡ rows self.card ++ drop (row_width * row_count self.card) table.old }
    {
        let axis = Axis::still(self.station(0).axis_height(), u64::from(self.card.unit));
        self.write_on(axis, axis.number(), 0, self.count, table);
    }

    // Writes the rows of an absolute card with this height and grade: its axis is worked out at every station. Each row is written by
    // `write_on`, so that the reckoning of a row has one caller and is compiled into its loop; with two, relative tables took half as long again.
    fn write_absolute(self, height: i32, grade: i32, table: &mut [i32])
        requires datum { self.card.datum ≡ Datum.Absolute height grade }
        requires room { row_width * self.count ≤ length table.old }
        ensures { table.new ≡ rows self.card ++ drop (row_width * row_count self.card) table.old }
    {
        let unit = u64::from(self.card.unit);
        for i in 0..self.count {
            let station = station_of(self.card.clothoid, self.card.step, i as u32);
            let axis = Axis::surveyed(height, grade, station, unit);
            self.write_on(axis, axis.number(), i, i + 1, table);
        }
    }
}

// Writes the rows of an accepted card into a table that has room for them.
pub(crate) fn write_rows(card: Card, r: Runoff, count: usize, table: &mut [i32])
    requires card_value { (refusal card ≡ 0) × (r ≡ runoff_of card) }
    requires count_value { (count ≡ row_count card) × (row_width * count ≤ length table.old) }
    ensures { table.new ≡ rows card ++ drop (row_width * row_count card) table.old }
{
    let accepted = Accepted {
        card,
        runoff: r,
        count,
    };
    match card.datum {
        Datum::Relative => accepted.write_relative(table),
        Datum::Absolute { height, grade } => accepted.write_absolute(height, grade, table),
    }
}
