// The names of a list of curves: whether each stands in the bytes, and whether two are the same.
ghost use Rattle.std.specs.Prelude.{◌≡◌};
ghost use Rattle.card_list.specs.List.{name_place_in};
ghost use Rattle.book.specs.WriterSteps.{key_read, KeysRead, twin_keys};

use crate::PLACES;
use crate::curves::Curves;
use crate::text::name_run;
use card_list::name_of_curve;

// A name has no more bytes.
const MOST_NAME: usize = 8;

// The key of the name of a curve; none where the name is malformed, or outside the bytes.
fn name_key(curve: &[i32], names: &[u8]) -> Option<u64>
    ensures { result ≡ key_read names.now (name_place_in curve.now 0) }
{
    let at = name_of_curve(curve, 0);
    let place = at.place as usize;
    let size = at.size as usize;
    if size < 1 || size > MOST_NAME || place > names.len() {
        return None;
    }
    let run = name_run(names, place, size);
    if run.size < size {
        return None;
    }
    Some(run.key)
}

// The keys of the names of these curves, in order; none where one of the names is wrong.
pub(crate) fn read_names(curves: &Curves) -> Option<[u64; PLACES]>
    ensures { KeysRead curves.now.names.now curves.now.numbers.now result }
{
    // no heap: room for the most keys, of which the first are used
    let mut keys = [0; PLACES];
    for (i, curve) in curves.numbers.iter().enumerate() {
        keys[i] = name_key(curve, curves.names)?;
    }
    Some(keys)
}

// Whether a key stands twice.
pub(crate) fn any_twin(keys: &[u64]) -> bool
    ensures { result ≡ twin_keys keys.now }
{
    for (i, key) in keys.iter().enumerate() {
        if keys[i + 1..].contains(key) {
            return true;
        }
    }
    false
}
