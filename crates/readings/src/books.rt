// The book that the text is writing: its bytes, and how a line writes them.
ghost use Rattle.std.specs.Prelude.{◌≡◌, ◌≤◌, ◌<◌, length, IfSome};

use crate::text::{read_figure, read_size};

// Room for 8192 bytes, the most that a book may have, and for some more: the call has to refuse a longer book.
const BOOK_ROOM: usize = 8208;

// The book has no room for more times than it has bytes.
const MOST_TIMES: u32 = 8208;

// The bytes that are written of a book. The program has fixed memory and no heap, so they stand in an array, with their count beside it.
#[derive(Drop)]
pub(crate) struct Book {
    bytes: [u8; BOOK_ROOM],
    size: usize,
    ghost within: { size ≤ 8208 },
}

// The byte that a text writes, by its first byte and the rest, and the text that follows: a `/` is byte 10, a `\` and three digits the byte
// of that value, and any other byte is itself.
fn read_byte(first: u8, rest: &[u8]) -> Option<(u8, &[u8])>
    ensures { IfSome result (λ read. length read.1.now ≤ length rest.now) }
{
    match first {
        b'/' => Some((b'\n', rest)),
        b'\\' => {
            let (digits, rest) = rest.split_at_checked(3)?;
            let byte = u8::try_from(read_size(digits)?).ok()?;
            Some((byte, rest))
        }
        _ => Some((first, rest)),
    }
}

// `m TIMES TEXT`, without its letter: how often the text is appended, and the text.
fn read_times(line: &[u8]) -> Option<(u32, &[u8])> {
    let (times, rest) = read_figure(line)?;
    let times = times?.whole()?;
    let [b' ', text @ ..] = rest else {
        return None;
    };
    if times > MOST_TIMES {
        None
    } else {
        Some((times, text))
    }
}

impl Book {
    pub(crate) fn new() -> Self {
        Book {
            bytes: [0; BOOK_ROOM],
            size: 0,
        }
    }

    // The book has no byte from here on.
    pub(crate) fn clear(&mut self)
        ensures { self.new.size ≡ 0 }
    {
        self.size = 0;
    }

    pub(crate) fn text(&self) -> &[u8] {
        &self.bytes[..self.size]
    }

    pub(crate) fn size(&self) -> u32 {
        self.size as u32
    }

    fn push(&mut self, byte: u8) -> Option<()> {
        *self.bytes.get_mut(self.size)? = byte;
        self.size += 1;
        Some(())
    }

    // No `for`: a byte is written by one byte of the text or by four.
    fn append_once(&mut self, text: &[u8]) -> Option<()> {
        let mut text = text;
        while let Some((first, rest)) = text.split_first() {
            let (byte, rest) = read_byte(*first, rest)?;
            self.push(byte)?;
            text = rest;
        }
        Some(())
    }

    fn append_times(&mut self, text: &[u8], times: u32) -> Option<()> {
        for _ in 0..times {
            self.append_once(text)?;
        }
        Some(())
    }

    // Appends the bytes that a text writes, several times. Where they do not all fit, none counts.
    fn append(&mut self, text: &[u8], times: u32) -> Option<()> {
        let size = self.size;
        let appended = self.append_times(text, times);
        if appended.is_none() {
            self.size = size;
        }
        appended
    }

    // `b TEXT` and `a TEXT`, without their letter: the text is appended once. A line that ends with its letter has none.
    pub(crate) fn append_text(&mut self, line: &[u8]) -> Option<()> {
        match line {
            [] => Some(()),
            [b' ', text @ ..] => self.append(text, 1),
            _ => None,
        }
    }

    // `m TIMES TEXT`, without its letter.
    pub(crate) fn append_repeated(&mut self, line: &[u8]) -> Option<()> {
        let (times, text) = read_times(line)?;
        self.append(text, times)
    }
}
