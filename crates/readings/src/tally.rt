// The counts of a group of figures.
use std::fmt;

// What is counted of a group of figures. A text is too short to reach a count's limit.
#[derive(Clone, Copy, Default)]
pub(crate) struct Tally {
    books: u32,
    cards: u32,
    rows: u32,
    compared: u32,
    failed: u32,
}

impl Tally {
    pub(crate) fn count_book(&mut self) {
        self.books = self.books.saturating_add(1);
    }

    pub(crate) fn count_card(&mut self) {
        self.cards = self.cards.saturating_add(1);
    }

    pub(crate) fn count_row(&mut self) {
        self.rows = self.rows.saturating_add(1);
    }

    // Counts whether a figure held, where the paper prints it.
    pub(crate) fn count_figure(&mut self, held: Option<bool>) {
        let Some(held) = held else {
            return;
        };
        self.compared = self.compared.saturating_add(1);
        if !held {
            self.failed = self.failed.saturating_add(1);
        }
    }
}

impl fmt::Display for Tally {
    fn fmt<W: fmt::Write>(&self, f: &mut fmt::Formatter<W>) -> fmt::Result {
        let Tally {
            books,
            cards,
            rows,
            compared,
            failed,
        } = self;
        write!(
            f,
            "{books} books, {cards} cards, {rows} rows, {compared} figures compared, {failed} failed"
        )
    }
}
