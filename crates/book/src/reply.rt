// The reply to a text: the lines in order, the first at fault.
ghost use Rattle.std.specs.Prelude.{◌≡◌, ◌≤◌, ◌<◌, [], length, IfOk};
ghost use Rattle.std.proofs.lemmas.List.Edits.{sets};
ghost use Rattle.decimal.specs.Decimal.{Each};
ghost use Rattle.book.specs.Book.{most_curves, most_bytes, bodies_from, contents_from, text_reply, told_book, after_headings, entries_from, entries_of};
ghost use Rattle.book.specs.Reading.{IsKept, places_of, entries_by};

use crate::lines::{KeptName, contents_line, curve};
use crate::text::{End, read_number};
use crate::{BookRefusal, Fault, LEAST_LIST, MOST_BYTES, MOST_CURVES, PLACES};
use card_list::CURVE_WIDTH;

// Where no name is kept yet.
const NO_NAME: KeptName = KeptName {
    place: 0,
    size: 0,
    key: 0,
};

// The bodies of the curves with these names, and the end of the text after them. The curves are drafted.
fn bodies(
    text: &[u8],
    names: &[KeptName],
    from: usize,
    draft: &mut [i32; LEAST_LIST],
) -> Result<u32, BookRefusal>
    requires { (length names.now ≤ most_curves) × Each (IsKept text.now) names.now }
    ensures value { let n = length names.now in told_book result ≡ bodies_from n text.now n 0 from }
    ensures count_value { IfOk result (λ count. (count ≡ length names.now) × (draft.new ≡ sets draft.old 0 (entries_by text.now (places_of names.now) from))) }
{
    let n = names.len() as u32;
    let mut at = from;
    for (i, name) in names.iter().enumerate() {
        let line = n + i as u32 + 2;
        let read = curve(text, *name, at, draft, CURVE_WIDTH * i);
        at = read.map_err(|fault| fault.at_line(line))?;
    }
    if at != text.len() {
        return Err(Fault::Tail.at_line(n + n + 2));
    }
    Ok(n)
}

// The n contents lines, and what follows them. Their names are kept for the draft and for the twin test.
fn contents(
    text: &[u8],
    n: u32,
    first: usize,
    draft: &mut [i32; LEAST_LIST],
) -> Result<u32, BookRefusal>
    requires n_le_most_curves { (n ≤ most_curves) × (length text.now ≤ most_bytes) }
    ensures value { told_book result ≡ contents_from n text.now n [] first }
    ensures count_value { IfOk result (λ count. (count ≡ n) × (draft.new ≡ sets draft.old 0 (entries_from n text.now first (after_headings n text.now first)))) }
{
    // no heap: room for the most names, of which the first are used
    let mut names = [NO_NAME; PLACES];
    let mut at = first;
    for i in 0..n {
        let used = i as usize;
        let line = i + 2;
        let read = contents_line(text, &names[..used], at, n + i + 2);
        let (name, next) = read.map_err(|fault| fault.at_line(line))?;
        names[used] = name;
        at = next;
    }
    let count = n as usize;
    bodies(text, &names[..count], at, draft)
}

// The reply to a text, where the list is long enough. Of an accepted text the curves stand in the draft afterwards.
#[tactic(auto, unfolding(crate::specs::Book::text_reply))]
pub(crate) fn text_reply(text: &[u8], draft: &mut [i32; LEAST_LIST]) -> Result<u32, BookRefusal>
    ensures value { told_book result ≡ text_reply text.now }
    ensures few { IfOk result (λ count. count ≤ most_curves) }
    ensures draft_after { IfOk result (λ count. draft.new ≡ sets draft.old 0 (entries_of text.now count)) }
{
    if text.is_empty() || MOST_BYTES < text.len() {
        return Err(Fault::BookSize.at_line(0));
    }
    let no_count = Fault::CountLine.at_line(1);
    let (n, next) = read_number(text, 0, End::Line).ok_or(no_count)?;
    if n < 1 || MOST_CURVES < n {
        return Err(no_count);
    }
    contents(text, n, next, draft)
}
