// The bytes of a case, from its text.
ghost use Rattle.std.specs.Prelude.{◌≤◌, length, IfSome};
ghost use Rattle.cases.specs.Rest.{IsRest};

use crate::scan::{pair, skip, times};

// Up to the next label or the text's end: how many bytes there are, and what is left of the text.
pub fn put_bytes<'a>(text: &'a [u8], bytes: &mut [u8]) -> Option<(usize, &'a [u8])>
    ensures count { IfSome result (λ found. found.0 ≤ length bytes.old) }
    ensures rest { IfSome result (λ found. IsRest text.now found.1.now) }
{
    let mut rest = skip(text);
    let mut filled = 0;
    while rest.first().is_some_and(|first| *first != b'#') {
        let (byte, after_pair) = pair(rest)?;
        let (count, after) = times(after_pair)?;
        bytes[filled..].get_mut(..count)?.fill(byte);
        filled += count;
        rest = skip(after);
    }
    Some((filled, rest))
}
