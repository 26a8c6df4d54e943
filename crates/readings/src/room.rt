// The numbers that are lent to a call, and what stands in them afterwards.
ghost use Rattle.std.specs.Prelude.{◌≡◌, ◌+◌, ◌≤◌, ◌<◌, pos, length};

use std::ops::Range;

// What stands at the first place before a call. The mark of each further place is one more, so that no row and no curve of a book has one.
const FIRST_MARK: i32 = 1000000000;

// The mark of a place.
fn mark(place: usize) -> i32
    requires { place ≤ 2128 }
    ensures { result ≡ pos (1000000000 + place) }
{
    FIRST_MARK + place as i32
}

// N numbers, of which the first are lent to a call. No room has more than 2128 of them. All of them are looked at afterwards, so it is no slice alone,
// and their count is in the type, so that a loop over them costs what it does over an array.
#[derive(Drop)]
pub(crate) struct Room<'a, const N: usize> {
    numbers: &'a mut [i32],
    lent: usize,
    ghost whole: { length numbers.now ≡ N },
    ghost within: { lent ≤ length numbers.now },
    ghost small: { length numbers.now ≤ 2128 },
}

impl<'a, const N: usize> Room<'a, N> {
    // All of the numbers are lent at first.
    pub(crate) fn new(numbers: &'a mut [i32; N]) -> Self
        requires { length numbers.old ≤ 2128 }
    {
        let lent = numbers.len();
        Room { numbers, lent }
    }

    // Lends so many of the first numbers from here on.
    pub(crate) fn lend(&mut self, lent: u32) -> Option<()> {
        let lent = lent as usize;
        if lent > self.numbers.len() {
            return None;
        }
        self.lent = lent;
        Some(())
    }

    // The marks of the places, in order.
    fn marks(&self) -> Range<i32>
        ensures start { result.start ≡ pos 1000000000 }
        ensures end { result.end ≡ pos (1000000000 + length self.now.numbers.now) }
    {
        mark(0)..mark(self.numbers.len())
    }

    // Puts its mark at each place of the room, and runs a call over the first numbers.
    pub(crate) fn run<T, F: FnOnce(&mut [i32]) -> T>(&mut self, call: F) -> T
        requires { F.IsAlwaysCallable call }
    {
        let marks = self.marks();
        for (number, mark) in self.numbers.iter_mut().zip(marks) {
            *number = mark;
        }
        call(&mut self.numbers[..self.lent])
    }

    pub(crate) fn numbers(&self) -> &[i32] {
        self.numbers
    }

    // The first place from which on every number is its mark.
    pub(crate) fn untouched_from(&self) -> u32 {
        for last in (0..N).rev() {
            if self.numbers[last] != mark(last) {
                return last as u32 + 1;
            }
        }
        0
    }

    // The numbers of a row, rows counted from 0. A row past the last of so many has none.
    pub(crate) fn row(&self, width: usize, count: u32, row: u32) -> &[i32]
        requires { 0 < width }
    {
        if row >= count {
            return &[];
        }
        let mut rows = self.numbers.chunks_exact(width);
        rows.nth(row as usize).unwrap_or(&[])
    }
}
