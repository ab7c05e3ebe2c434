// Cases that are written as text, for `vectors`: the head of its file stdin says how.
#![tactic(auto)]

mod bytes;
mod scan;

ghost use Rattle.std.specs.Prelude.{◌+◌, ◌≤◌, length, drop, IfSome};
ghost use Rattle.std.specs.Io.{StartsWith};
ghost use Rattle.cases.specs.Rest.{IsRest};

use bytes::put_bytes;
pub use scan::skip;

// The label to its line's end, how many bytes there are, and the text from the next case on.
#[derive(Clone, Copy)]
pub struct Case<'a> {
    pub label: &'a [u8],
    pub count: usize,
    pub rest: &'a [u8],
}

// The label stands after the mark and a blank; the bytes are those up to the next mark. None where the case is badly written.
pub fn read_case<'a>(text: &'a [u8], bytes: &mut [u8]) -> Option<Case<'a>>
    ensures label { IfSome result (λ found. StartsWith (drop 2 text.now) found.label.now) }
    ensures count { IfSome result (λ found. found.count ≤ length bytes.old) }
    ensures rest { IfSome result (λ found. IsRest text.now found.rest.now) }
    ensures apart { IfSome result (λ found. 2 + length found.label.now + length found.rest.now ≤ length text.now) }
{
    let marked = text.strip_prefix(b"#")?;
    let end = marked.iter().position(|byte| *byte == b'\n')?;
    let (line, body) = marked.split_at(end + 1);
    let (count, rest) = put_bytes(body, bytes)?;
    Some(Case {
        label: &line[1..],
        count,
        rest,
    })
}
