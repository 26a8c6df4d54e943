// The row that is walked, its step, and the rows that are written so.
ghost use Rattle.std.specs.Prelude.{◌≡◌, ◌/◌, length};
ghost use Rattle.card.specs.RowsInto.{with_rows};
ghost use Rattle.runoff.specs.Rows.{row_width};
ghost use Rattle.walk.specs.Stepping.{row_stepped, cells_of, cells_on};

use runoff::ROW_WIDTH;
use walking::Curve;

// A row whose numbers are walked: the station in mm and its step, the others in counts of the unit.
#[derive(Clone, Copy)]
pub(crate) struct Walker {
    pub station: u32,
    pub step: u32,
    pub widening: Curve,
    pub inner_brow: Curve,
    pub inner_edge: Curve,
    pub axis: Curve,
    pub outer_edge: Curve,
    pub outer_brow: Curve,
}

impl Walker {
    // The next row.
    #[tactic(auto, unfolding(crate::specs::Stepping::row_stepped))]
    fn next(self) -> Self
        ensures { result ≡ row_stepped self }
    {
        Walker {
            station: self.station.wrapping_add(self.step),
            step: self.step,
            widening: self.widening.next(),
            inner_brow: self.inner_brow.next(),
            inner_edge: self.inner_edge.next(),
            axis: self.axis.next(),
            outer_edge: self.outer_edge.next(),
            outer_brow: self.outer_brow.next(),
        }
    }

    // Its seven numbers, as they stand in a table.
    fn cells(self) -> [i32; ROW_WIDTH]
        ensures { result ≡ cells_of self }
    {
        [
            self.station.cast_signed(),
            self.widening.number(),
            self.inner_brow.number(),
            self.inner_edge.number(),
            self.axis.number(),
            self.outer_edge.number(),
            self.outer_brow.number(),
        ]
    }
}

// Writes this row and those after it, as many as the part has room for. It has no card and no runoff, only the row's numbers and their gains: there
// is nothing here that a row could be worked afresh with.
pub(crate) fn walk_rows(from: Walker, part: &mut [i32])
    ensures { part.new ≡ with_rows row_width (cells_on from) 0 (length part.old / row_width) part.old }
{
    let count = part.len() / ROW_WIDTH;
    let mut row = from;
    for k in 0..count {
        let at = ROW_WIDTH * k;
        part[at..at + ROW_WIDTH].copy_from_slice(&row.cells());
        row = row.next();
    }
}
