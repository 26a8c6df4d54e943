// Contents lines and bodies. A draft and the place in it stay apart, as text and place do: it is lent on, and what is drafted has a place of its own.
ghost use Rattle.std.specs.Prelude.{◌≡◌, ◌+◌, ◌≤◌, length, OnOk};
ghost use Rattle.std.proofs.lemmas.List.Edits.{sets};
ghost use Rattle.card_list.specs.List.{curve_width};
ghost use Rattle.book.specs.Number.{number_at, signed_at};
ghost use Rattle.book.specs.Contents.{heading_at};
ghost use Rattle.book.specs.Body.{card_numbers, front_numbers, end_of, graded, surveyed, absolute_last, last_at, body_from, numbers_at};
ghost use Rattle.book.specs.Book.{most_bytes, entry_at};
ghost use Rattle.book.specs.Printed.{IsNumber};
ghost use Rattle.book.specs.Reading.{among, kept_at, keys_of, IsKept, line_by};

use crate::text::{End, ReadName, plain, read_name, read_number, read_signed};
use crate::{FRONT_NUMBERS, Fault};

// A name of the contents, as it is kept: its place, its size, and its bytes as one number.
#[derive(Clone, Copy)]
pub(crate) struct KeptName {
    pub place: u32,
    pub size: u32,
    pub key: u64,
}

// Whether a name with this key is kept.
fn is_twin(names: &[KeptName], key: u64) -> bool
    ensures { result ≡ among (keys_of names.now) key }
{
    names.iter().any(|name| name.key == key)
}

// The name of a contents line, that must name the line `due`, and the place after the line; `names` are those of the lines before.
#[tactic(auto, using(crate::proofs::Names::read_inside))]
pub(crate) fn contents_line(
    text: &[u8],
    names: &[KeptName],
    at: usize,
    due: u32,
) -> Result<(KeptName, usize), Fault>
    requires { length text.now ≤ most_bytes }
    ensures { result ≡ line_by names.now (kept_at text.now at) due (heading_at text.now at) }
{
    let ReadName { size, key } = read_name(text, at).ok_or(Fault::ContentsLine)?;
    let (value, next) = read_number(text, at + size + 1, End::Line).ok_or(Fault::ContentsLine)?;
    if value != due {
        return Err(Fault::WrongLine);
    }
    if is_twin(names, key) {
        return Err(Fault::TwinName);
    }
    let name = KeptName {
        place: at as u32,
        size: size as u32,
        key,
    };
    Ok((name, next))
}

// The byte after a number of a body, with `left` numbers after it.
pub(crate) fn end_byte(left: u32) -> u8
    ensures { result ≡ end_of left }
{
    if left == 0 { b'\n' } else { b' ' }
}

// The last four numbers of an absolute body, whose grade stands at a place, and the place after them.
fn read_grade(text: &[u8], at: usize, unit: u32, height: i32) -> Option<([i32; 4], usize)>
    requires { IsNumber unit }
    ensures { result ≡ graded unit height (signed_at text.now at 10) }
{
    let (grade, next) = read_signed(text, at, End::Line)?;
    Some(([plain(unit), 1, height, grade], next))
}

// The same, where the height stands at a place.
fn read_height(text: &[u8], at: usize, unit: u32) -> Option<([i32; 4], usize)>
    requires { IsNumber unit }
    ensures { result ≡ surveyed text.now unit (signed_at text.now at 32) }
{
    let (height, next) = read_signed(text, at, End::Blank)?;
    read_grade(text, next, unit, height)
}

// The same, where the unit stands at a place, with a blank after it.
fn absolute_last(text: &[u8], at: usize) -> Option<([i32; 4], usize)>
    ensures { result ≡ absolute_last text.now (number_at text.now at 32) }
{
    let (unit, next) = read_number(text, at, End::Blank)?;
    read_height(text, next, unit)
}

// The last four numbers of a body, whose unit stands at a place: byte 10 after it ends a relative body.
fn last_numbers(text: &[u8], at: usize) -> Option<([i32; 4], usize)>
    ensures { result ≡ last_at text.now at }
{
    let Some((unit, next)) = read_number(text, at, End::Line) else {
        return absolute_last(text, at);
    };
    Some(([plain(unit), 0, 0, 0], next))
}

// The end of a body, from its unit on: the last four numbers are drafted from the place `out` on.
fn body_end(text: &[u8], at: usize, draft: &mut [i32], out: usize) -> Result<usize, Fault>
    requires { out + 4 ≤ length draft.old }
    ensures value { result ≡ body_from 0 text.now at }
    ensures by_index { OnOk result (draft.new ≡ sets draft.old out (numbers_at 0 text.now at)) }
{
    let (last, next) = last_numbers(text, at).ok_or(Fault::Body)?;
    draft[out..out + 4].copy_from_slice(&last);
    Ok(next)
}

// A body: the seven numbers before the unit, each with a blank after it, and its end; drafted from the place `start` on.
fn body(text: &[u8], from: usize, draft: &mut [i32], start: usize) -> Result<usize, Fault>
    requires { start + card_numbers ≤ length draft.old }
    ensures value { result ≡ body_from front_numbers text.now from }
    ensures by_index { OnOk result (draft.new ≡ sets draft.old start (numbers_at front_numbers text.now from)) }
{
    let last = start + FRONT_NUMBERS;
    let mut at = from;
    for out in start..last {
        let (value, next) = read_number(text, at, End::Blank).ok_or(Fault::Body)?;
        draft[out] = plain(value);
        at = next;
    }
    body_end(text, at, draft, last)
}

// The thirteen numbers of a curve with this name, whose body stands at `from`: drafted from `out` on.
pub(crate) fn curve(
    text: &[u8],
    name: KeptName,
    from: usize,
    draft: &mut [i32],
    out: usize,
) -> Result<usize, Fault>
    requires name_kept { IsKept text.now name }
    requires curve_width_in_bounds { out + curve_width ≤ length draft.old }
    ensures value { result ≡ body_from front_numbers text.now from }
    ensures by_index { OnOk result (draft.new ≡ sets draft.old out (entry_at text.now name.place from)) }
{
    draft[out] = plain(name.place);
    draft[out + 1] = plain(name.size);
    body(text, from, draft, out + 2)
}
