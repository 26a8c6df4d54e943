// Bytes, numbers and names at places of the text. Text and place stay apart, as in the paper's definitions: a read gives the next place alone.
ghost use Rattle.std.specs.Prelude.{◌≡◌, ◌≤◌, ◌<◌, length, pos};
ghost use Rattle.book.specs.Number.{byte_at, ended_at, digits_at, number_at, minus_field, signed_at};
ghost use Rattle.book.specs.Name.{is_name_byte};
ghost use Rattle.book.specs.Printed.{IsNumber};
ghost use Rattle.book.specs.Reading.{byte_of, digit_read, run_at, read_at};

// What ends a number: byte 10, the end of the line, or a blank.
#[derive(Clone, Copy)]
pub(crate) enum End {
    Line = 10,
    Blank = 32,
}

// A name as it is read: its size, and its bytes as one number.
#[derive(Clone, Copy)]
pub(crate) struct ReadName {
    pub size: usize,
    pub key: u64,
}

// The byte at a place; 0 past the end, as the definition reads it: no Option, which each of its callers would turn into 0.
fn byte_at(text: &[u8], at: usize) -> u8
    ensures { result ≡ byte_at text.now at }
{
    text.get(at).copied().unwrap_or(0)
}

// The value of the digit at a place.
#[tactic(auto, unfolding(crate::specs::Number::digit_at))]
fn digit_at(text: &[u8], at: usize) -> Option<u32>
    ensures { result ≡ digit_read text.now at }
{
    match byte_at(text, at) {
        b @ b'0'..=b'9' => Some(u32::from(b - b'0')),
        _ => None,
    }
}

// The value and the place after it, if the byte of `end` stands at the place.
#[tactic(auto, using(crate::proofs::Places::byte_inside), unfolding(crate::specs::Number::ended_at))]
fn ended(text: &[u8], at: usize, value: u32, end: End) -> Option<(u32, usize)>
    ensures { result ≡ ended_at text.now at value (byte_of end) }
{
    if byte_at(text, at) != end as u8 {
        return None;
    }
    Some((value, at + 1))
}

// At most six digits more after a first one, and the byte of `end`.
fn digits(text: &[u8], from: usize, first: u32, end: End) -> Option<(u32, usize)>
    requires { (from ≤ length text.now) × (first < 10) }
    ensures { result ≡ digits_at 6 text.now from first (byte_of end) }
{
    let last = from + 6;
    let mut value = first;
    for at in from..last {
        let Some(d) = digit_at(text, at) else {
            return ended(text, at, value, end);
        };
        value = value * 10 + d;
    }
    ended(text, last, value, end)
}

// A number and the byte of `end`, and the place after them.
pub(crate) fn read_number(text: &[u8], at: usize, end: End) -> Option<(u32, usize)>
    ensures { result ≡ number_at text.now at (byte_of end) }
{
    let d = digit_at(text, at)?;
    if d == 0 {
        return ended(text, at + 1, 0, end);
    }
    digits(text, at + 1, d, end)
}

// A number with no minus, as the list has it.
pub(crate) fn plain(v: u32) -> i32
    requires { IsNumber v }
    ensures { result ≡ pos v }
{
    v as i32
}

// A number with a minus before it, and the byte of `end`: 0 has none.
fn read_minus(text: &[u8], at: usize, end: End) -> Option<(i32, usize)>
    ensures { result ≡ minus_field (number_at text.now at (byte_of end)) }
{
    let (value, next) = read_number(text, at, end)?;
    if value == 0 {
        return None;
    }
    let size = plain(value);
    Some((-size, next))
}

// A signed number and the byte of `end`: an optional minus before a number other than 0.
pub(crate) fn read_signed(text: &[u8], at: usize, end: End) -> Option<(i32, usize)>
    ensures { result ≡ signed_at text.now at (byte_of end) }
{
    if byte_at(text, at) == b'-' {
        return read_minus(text, at + 1, end);
    }
    let (value, next) = read_number(text, at, end)?;
    Some((plain(value), next))
}

// A capital or a digit.
fn is_name_byte(b: u8) -> bool
    ensures { result ≡ is_name_byte b }
{
    matches!(b, b'0'..=b'9' | b'A'..=b'Z')
}

// The bytes of a name from a place on, at most so many of them.
pub(crate) fn name_run(text: &[u8], from: usize, most: usize) -> ReadName
    requires { most ≤ 8 }
    ensures { result ≡ run_at most text.now from }
{
    let mut key: u64 = 0;
    for n in 0..most {
        let b = byte_at(text, from + n);
        if !is_name_byte(b) {
            return ReadName { size: n, key };
        }
        key = key * 256 + u64::from(b);
    }
    ReadName { size: most, key }
}

// The name at a place, with a blank after it.
pub(crate) fn read_name(text: &[u8], at: usize) -> Option<ReadName>
    ensures { result ≡ read_at text.now at }
{
    let run = name_run(text, at, 8);
    if run.size == 0 {
        return None;
    }
    (byte_at(text, at + run.size) == b' ').then_some(run)
}
