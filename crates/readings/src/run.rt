// Runs a line of the text: a group, a book, a card, or figures that are expected of the last book or card. A line that is not understood
// gives None.

use crate::books::Book;
use crate::room::Room;
use crate::tally::Tally;
use crate::text::{Figure, read_figures, read_first};
use crate::{LIST_ROOM, TABLE_ROOM};
use book::BookRefusal;
use card::{Card, Datum, Refusal, in_numbers};
use card_list::CURVE_WIDTH;
use runoff::ROW_WIDTH;
use std::io;

// A group of the text: its name, its last card's reply, the book that it writes, the reply of its last reading, and what is counted.
#[derive(Drop)]
struct Group<'a> {
    name: &'a [u8],
    reply: Option<Result<u32, Refusal>>,
    book: Option<Book>,
    book_reply: Option<Result<u32, BookRefusal>>,
    tally: Tally,
}

// How far a text was run: the group that it is in, what is lent to the calls, and how many lines were not understood.
#[derive(Drop)]
pub(crate) struct Run<'a> {
    group: Option<Group<'a>>,
    table: Room<'a, TABLE_ROOM>,
    list: Room<'a, LIST_ROOM>,
    pub(crate) wrong_lines: u32,
}

// `t LENGTH` and `l LENGTH`: how many numbers of a room are lent from here on.
fn lend<const N: usize>(room: &mut Room<N>, text: &[u8]) -> Option<()> {
    let [lent] = read_figures::<1>(text)?;
    room.lend(lent?.whole()?)
}

// What the heights of a card count from: the benchmark, where two figures follow the card's eight, which may be below nought.
fn read_datum(text: &[u8]) -> Option<Datum> {
    if text.is_empty() {
        return Some(Datum::Relative);
    }
    let [height, grade] = read_figures::<2>(text)?;
    let height = i32::try_from(height?.value()).ok()?;
    let grade = i32::try_from(grade?.value()).ok()?;
    Some(Datum::Absolute { height, grade })
}

// A card's eight numbers, or ten.
fn read_card(text: &[u8]) -> Option<Card> {
    let (
        [
            profile,
            terrain,
            radius,
            clothoid,
            slope,
            widening,
            step,
            unit,
        ],
        rest,
    ) = read_first::<8>(text)?;
    Some(Card {
        profile: profile?.whole()?,
        terrain: terrain?.whole()?,
        radius: radius?.whole()?,
        clothoid: clothoid?.whole()?,
        full_slope: slope?.whole()?,
        full_widening: widening?.whole()?,
        step: step?.whole()?,
        unit: unit?.whole()?,
        datum: read_datum(rest)?,
    })
}

impl<'a> Group<'a> {
    fn new(name: &'a [u8]) -> Self {
        Group {
            name,
            reply: None,
            book: None,
            book_reply: None,
            tally: Tally::default(),
        }
    }

    // Fills the table for a card.
    fn run_card(&mut self, card: Card, table: &mut Room<TABLE_ROOM>) {
        let reply = table.run(|numbers| runoff::fill_table(card, numbers));
        self.reply = Some(reply);
        self.tally.count_card();
    }

    // `c` and a card's eight numbers, or ten: fills the table.
    fn try_card(&mut self, text: &[u8], table: &mut Room<TABLE_ROOM>) -> Option<()> {
        let card = read_card(text)?;
        self.run_card(card, table);
        Some(())
    }

    // `h CURVE`: fills the table for the card of a curve in the list, curves counted from 0. No curve is past the last that was read.
    fn try_curve(
        &mut self,
        text: &[u8],
        table: &mut Room<TABLE_ROOM>,
        list: &Room<LIST_ROOM>,
    ) -> Option<()> {
        let [curve] = read_figures::<1>(text)?;
        let curve = curve?.whole()?;
        if curve >= self.book_reply?.unwrap_or(0) {
            return None;
        }
        self.run_card(card_list::card_of_curve(list.numbers(), curve), table);
        Some(())
    }

    // Compares figures with the numbers of a reply.
    fn compare(&mut self, figures: &[Option<Figure>], numbers: &[u32]) {
        for (figure, number) in figures.iter().zip(numbers) {
            let held = figure.map(|figure| figure.whole() == Some(*number));
            self.tally.count_figure(held);
        }
    }

    // Compares figures with the numbers of a row or of a curve. Where it has none, no figure holds. Not `compare`: there -0 is no 0.
    fn compare_signed(&mut self, figures: &[Option<Figure>], numbers: &[i32]) {
        for (column, figure) in figures.iter().enumerate() {
            let number = numbers.get(column).map(|number| i64::from(*number));
            let held = figure.map(|figure| number == Some(figure.value()));
            self.tally.count_figure(held);
        }
    }

    // `n NUMBER COUNT PLACE`: the reply's two numbers, and the first place from which on the table is untouched.
    fn compare_reply(&mut self, text: &[u8], table: &Room<TABLE_ROOM>) -> Option<()> {
        let figures: [Option<Figure>; 3] = read_figures(text)?;
        let (number, count) = in_numbers(self.reply?);
        self.compare(&figures, &[number, count, table.untouched_from()]);
        Some(())
    }

    // `r ROW` and a row's seven numbers, rows counted from 0. A row past the last that the call counts has none.
    fn compare_row(&mut self, text: &[u8], table: &Room<TABLE_ROOM>) -> Option<()> {
        let ([row], rest) = read_first::<1>(text)?;
        let figures: [Option<Figure>; ROW_WIDTH] = read_figures(rest)?;
        let row = row?.whole()?;
        let count = self.reply?.unwrap_or(0);
        self.tally.count_row();
        self.compare_signed(&figures, table.row(ROW_WIDTH, count, row));
        Some(())
    }

    // `b TEXT`: begins a book, which has no byte where the line is not understood or has too many.
    fn begin_book(&mut self, text: &[u8]) -> Option<()> {
        let book = self.book.get_or_insert_with(Book::new);
        book.clear();
        book.append_text(text)
    }

    // Reads a text into a list of marks. The reply's three numbers, and the first place from which on the list is untouched, are compared
    // with the figures.
    fn read_book(
        &mut self,
        size: u32,
        figures: [Option<Figure>; 4],
        list: &mut Room<LIST_ROOM>,
    ) -> Option<()> {
        let text = self.book.as_ref()?.text().get(..size as usize)?;
        let reply = list.run(|numbers| book::read_book(text, numbers));
        self.book_reply = Some(reply);
        self.tally.count_book();
        let (number, count, line) = book::in_numbers(reply);
        self.compare(&figures, &[number, count, line, list.untouched_from()]);
        Some(())
    }

    // `o NUMBER COUNT LINE PLACE`: reads the book.
    fn read_whole(&mut self, text: &[u8], list: &mut Room<LIST_ROOM>) -> Option<()> {
        let figures = read_figures(text)?;
        let size = self.book.as_ref()?.size();
        self.read_book(size, figures, list)
    }

    // `k BYTES NUMBER COUNT LINE PLACE`: reads the book's first bytes. A book has no more bytes than are written of it.
    fn read_start(&mut self, text: &[u8], list: &mut Room<LIST_ROOM>) -> Option<()> {
        let ([size], rest) = read_first::<1>(text)?;
        let figures = read_figures(rest)?;
        self.read_book(size?.whole()?, figures, list)
    }

    // `e CURVE` and a curve's thirteen numbers in the list, curves counted from 0. A curve past the last that was read has none.
    fn compare_curve(&mut self, text: &[u8], list: &Room<LIST_ROOM>) -> Option<()> {
        let ([curve], rest) = read_first::<1>(text)?;
        let figures: [Option<Figure>; CURVE_WIDTH] = read_figures(rest)?;
        let curve = curve?.whole()?;
        let count = self.book_reply?.unwrap_or(0);
        self.compare_signed(&figures, list.row(CURVE_WIDTH, count, curve));
        Some(())
    }
}

// `g NAME`: the name, of a byte at least.
fn group_name(line: &[u8]) -> Option<&[u8]> {
    match line {
        [b'g', b' ', name @ ..] if !name.is_empty() => Some(name),
        _ => None,
    }
}

impl<'a> Run<'a> {
    // Before the first group nothing is run.
    pub(crate) fn new(table: Room<'a, TABLE_ROOM>, list: Room<'a, LIST_ROOM>) -> Self {
        Run {
            group: None,
            table,
            list,
            wrong_lines: 0,
        }
    }

    // Prints a group's name and its tally. Before the first group there is no name, and nothing is printed.
    pub(crate) fn print_group(&self, rt: &impl Print) -> io::Result<()> {
        if let Some(group) = &self.group {
            rt.write_all(group.name)?;
            println!(rt; ": {}", group.tally)?;
        }
        Ok(())
    }

    pub(crate) fn count_wrong_line(&mut self) {
        self.wrong_lines = self.wrong_lines.saturating_add(1);
    }

    // Runs a line by its letter. A line that begins with `#` says where the figures come from. No table of calls: each takes other rooms.
    fn run_by_letter(&mut self, line: &[u8]) -> Option<()> {
        let (letter, text) = line.split_first()?;
        if *letter == b'#' {
            return Some(());
        }
        let group = self.group.as_mut()?;
        match *letter {
            b't' => lend(&mut self.table, text),
            b'l' => lend(&mut self.list, text),
            b'c' => group.try_card(text, &mut self.table),
            b'h' => group.try_curve(text, &mut self.table, &self.list),
            b'n' => group.compare_reply(text, &self.table),
            b'r' => group.compare_row(text, &self.table),
            b'b' => group.begin_book(text),
            b'a' => group.book.as_mut()?.append_text(text),
            b'm' => group.book.as_mut()?.append_repeated(text),
            b'o' => group.read_whole(text, &mut self.list),
            b'k' => group.read_start(text, &mut self.list),
            b'e' => group.compare_curve(text, &self.list),
            _ => None,
        }
    }

    // Runs a line. A group's line prints the group before, and begins one.
    pub(crate) fn run_line(&mut self, rt: &impl Print, line: &'a [u8]) -> io::Result<()> {
        if let Some(name) = group_name(line) {
            self.print_group(rt)?;
            self.group = Some(Group::new(name));
            return Ok(());
        }
        if self.run_by_letter(line).is_none() {
            self.count_wrong_line();
        }
        Ok(())
    }
}
