// Runs the books and the curve cards of a text through the book call and the table call, and compares what they give with the
// figures that the text expects.
// The last group of the text has one wrong figure in each line: that its tally counts them all shows that a wrong figure is seen.
#![tactic(auto)]

mod books;
mod room;
mod run;
mod tally;
mod text;

use crate::room::Room;
use crate::run::Run;
use std::io;

// Room for the text of figures, with one byte more than it may have.
const TEXT_ROOM: usize = 163841;

// The table has room for 301 rows of seven numbers, the most that a card can have, and for some more that must stay as they are.
const TABLE_ROOM: usize = 2128;

// The list has room for 64 curves of thirteen numbers, the most that a book can have, and for some more that must stay as they are.
const LIST_ROOM: usize = 896;

// Runs each line of the text. A last line without byte 10 is not understood.
fn run_text<'a>(rt: &impl Print, text: &'a [u8], run: &mut Run<'a>) -> io::Result<()> {
    for line in text.split_inclusive(|byte| *byte == b'\n') {
        match line.strip_suffix(b"\n") {
            Some(line) => run.run_line(rt, line)?,
            None => run.count_wrong_line(),
        }
    }
    Ok(())
}

fn main(rt: HostRuntime) -> io::Result<()> {
    let mut text = [0u8; TEXT_ROOM];
    let got = input::read_full(&mut rt.stdin(), &mut text)?;
    let mut table = [0i32; TABLE_ROOM];
    let mut list = [0i32; LIST_ROOM];
    let mut run = Run::new(Room::new(&mut table), Room::new(&mut list));
    run_text(&rt, &text[..got], &mut run)?;
    run.print_group(&rt)?;
    println!(rt; "lines not understood: {}", run.wrong_lines)?;
    if got == TEXT_ROOM {
        println!(rt; "the text is too long, and its end was not read")?;
    }
    Ok(())
}
