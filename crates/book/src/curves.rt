// The curves of a list to be written.
ghost use Rattle.std.specs.Prelude.{◌≤◌, length};
ghost use Rattle.book.specs.Book.{most_curves};

use card_list::CURVE_WIDTH;

// At most 64 curves, thirteen numbers each, and the bytes in which their names stand.
#[derive(Clone, Copy)]
pub(crate) struct Curves<'a> {
    pub numbers: &'a [[i32; CURVE_WIDTH]],
    pub names: &'a [u8],
    ghost few: { length numbers.now ≤ most_curves },
}
