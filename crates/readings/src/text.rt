// Reads the figures of a line.
ghost use Rattle.std.specs.Prelude.{◌<◌, length, IfSome};

// A number of a line: whether it has a minus, which is told of -0 too, and its size.
#[derive(Clone, Copy)]
pub(crate) struct Figure {
    negative: bool,
    size: u32,
}

impl Figure {
    // The number, where it has no minus.
    pub(crate) fn whole(self) -> Option<u32> {
        if self.negative { None } else { Some(self.size) }
    }

    pub(crate) fn value(self) -> i64 {
        let size = i64::from(self.size);
        if self.negative { -size } else { size }
    }
}

// The number that digits write. At least one is due, and no number is larger than a card can hold.
pub(crate) fn read_size(digits: &[u8]) -> Option<u32> {
    if digits.is_empty() {
        return None;
    }
    let mut size = 0u32;
    for byte in digits {
        let digit = char::from(*byte).to_digit(10)?;
        size = size.checked_mul(10)?.checked_add(digit)?;
    }
    Some(size)
}

// The number that a piece of a line writes, with or without a minus.
fn read_number(piece: &[u8]) -> Option<Figure> {
    let (negative, digits) = match piece {
        [b'-', digits @ ..] => (true, digits),
        _ => (false, piece),
    };
    let size = read_size(digits)?;
    Some(Figure { negative, size })
}

// The figure that a text begins with, a blank before it, and the text that follows. Where the paper prints no figure the text has an `x`,
// and nothing is compared; what stands right behind it is left to the next read, which wants a blank or the end.
pub(crate) fn read_figure(text: &[u8]) -> Option<(Option<Figure>, &[u8])>
    ensures { IfSome result (λ read. length read.1.now < length text.now) }
{
    let [b' ', text @ ..] = text else {
        return None;
    };
    if let [b'x', rest @ ..] = text {
        return Some((None, rest));
    }
    let end = text.iter().position(|byte| *byte == b' ');
    let (piece, rest) = text.split_at(end.unwrap_or(text.len()));
    let figure = read_number(piece)?;
    Some((Some(figure), rest))
}

// Puts the figures that a text begins with into a list of them, and gives the text that follows.
fn fill_figures<'a>(text: &'a [u8], figures: &mut [Option<Figure>]) -> Option<&'a [u8]> {
    let mut rest = text;
    for figure in figures.iter_mut() {
        (*figure, rest) = read_figure(rest)?;
    }
    Some(rest)
}

// The first figures of a text, and the text that follows.
pub(crate) fn read_first<const N: usize>(text: &[u8]) -> Option<([Option<Figure>; N], &[u8])> {
    let mut figures = [None; N];
    let rest = fill_figures(text, &mut figures)?;
    Some((figures, rest))
}

// The figures of a text that has so many.
pub(crate) fn read_figures<const N: usize>(text: &[u8]) -> Option<[Option<Figure>; N]> {
    let mut figures = [None; N];
    let rest = fill_figures(text, &mut figures)?;
    if rest.is_empty() { Some(figures) } else { None }
}
