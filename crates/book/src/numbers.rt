// The numbers of a card as they stand in a list: whether a body has them, and which of them it shows.
ghost use Rattle.std.specs.Prelude.{◌≡◌, ◌||◌, ◌<◌, length};
ghost use Rattle.card_list.specs.List.{number_of};
ghost use Rattle.book.specs.Printed.{shown_numbers};
ghost use Rattle.book.specs.Writing.{wrong_mark, beside_nought, is_unfit};

use crate::CARD_NUMBERS;

// Where mark, height and grade stand among the eleven numbers of a card; the eight stand before the mark.
const MARK: usize = 8;

const HEIGHT: usize = 9;

const GRADE: usize = 10;

// How many numbers a relative body has, and an absolute one.
const RELATIVE_NUMBERS: usize = 8;

const ABSOLUTE_NUMBERS: usize = 10;

// The greatest number of seven digits; a minus is no digit.
const MOST_NUMBER: u32 = 9999999;

// Whether a mark, a number as C lends it, is not 0 or 1, or a height or a grade stands beside mark 0.
fn is_wrong_datum(mark: i32, height: i32, grade: i32) -> bool
    ensures { result ≡ (wrong_mark mark || beside_nought mark height grade) }
{
    match mark {
        0 => height != 0 || grade != 0,
        1 => false,
        _ => true,
    }
}

// Whether no body has these numbers: one of more than seven digits, one of the eight below 0, or a wrong datum.
pub(crate) fn is_unfit(numbers: &[i32; CARD_NUMBERS]) -> bool
    ensures { result ≡ is_unfit numbers.now }
{
    let long = numbers.iter().any(|z| z.unsigned_abs() > MOST_NUMBER);
    let below = numbers[..MARK].iter().any(|z| *z < 0);
    long || below || is_wrong_datum(numbers[MARK], numbers[HEIGHT], numbers[GRADE])
}

// How many numbers the body with these has: the eight, and height and grade where the mark is not 0.
// The mark stands between the eight and these two, so that no one slice has what a body shows: it is counted, and looked up by place.
#[tactic(auto, using(crate::proofs::WriterBodies::shown_relative, crate::proofs::WriterBodies::shown_absolute))]
pub(crate) fn shown_count(numbers: &[i32; CARD_NUMBERS]) -> usize
    ensures { result ≡ length (shown_numbers numbers.now) }
{
    if numbers[MARK] == 0 {
        RELATIVE_NUMBERS
    } else {
        ABSOLUTE_NUMBERS
    }
}

// One of them, counted from 0.
#[tactic(auto, using(crate::proofs::WriterBodies::shown_most, crate::proofs::WriterBodies::shown_front, crate::proofs::WriterBodies::shown_back))]
pub(crate) fn shown_at(numbers: &[i32; CARD_NUMBERS], i: usize) -> i32
    requires { i < length (shown_numbers numbers.now) }
    ensures { result ≡ number_of (shown_numbers numbers.now) i }
{
    if i < MARK { numbers[i] } else { numbers[i + 1] }
}
