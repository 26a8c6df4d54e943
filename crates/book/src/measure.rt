// How many bytes a book has.
ghost use Rattle.std.specs.Prelude.{◌≡◌, ◌≤◌, IfSome};
ghost use Rattle.book.specs.WriterSteps.{body_size, Sizes};

use crate::CARD_NUMBERS;
use crate::curves::Curves;
use crate::numbers::{is_unfit, shown_at, shown_count};
use card_list::name_of_curve;
use decimal::Text;

// How many bytes the body with these numbers has; none where no body has them.
fn body_size(numbers: &[i32; CARD_NUMBERS]) -> Option<usize>
    ensures value { result ≡ body_size numbers.now }
    ensures upper_bound { IfSome result (λ size. size ≤ 90) }
{
    if is_unfit(numbers) {
        return None;
    }
    let mut size = 0;
    for i in 0..shown_count(numbers) {
        size += shown_at(numbers, i).size() + 1;
    }
    Some(size)
}

// How many bytes the book of these curves has; none with numbers that no body has.
pub(crate) fn book_size(curves: &Curves) -> Option<usize>
    ensures { Sizes curves.now.numbers.now result }
{
    let n = curves.numbers.len();
    let mut size = (n as u32).size() + 1;
    for (i, curve) in curves.numbers.iter().enumerate() {
        let name = name_of_curve(curve, 0);
        let line = ((n + i + 2) as u32).size();
        let body = body_size(curve.last_chunk().unwrap())?;
        size += name.size as usize + line + body + 2;
    }
    Some(size)
}
