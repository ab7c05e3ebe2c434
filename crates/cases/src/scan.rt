// The parts of the text: lines, what stands between bytes, digits, numbers. Each is read at the start of a text, and what is left is answered.
ghost use Rattle.std.specs.Prelude.{◌≡◌, ◌+◌, ◌<◌, length, drop, IfSome};
ghost use Rattle.cases.specs.Rest.{IsRest};

// From the line's newline on, or from the text's end.
fn line_end(text: &[u8]) -> &[u8]
    ensures { IsRest text.now result.now }
{
    let length = text.iter().position(|byte| *byte == b'\n');
    &text[length.unwrap_or(text.len())..]
}

// After blanks, newlines and comments.
#[tactic(auto, using(crate::proofs::Rest::rest_after, crate::proofs::Rest::rest_of_rest))]
pub fn skip(text: &[u8]) -> &[u8]
    ensures { IsRest text.now result.now }
{
    let mut rest = text;
    while let Some((first, after)) = rest.split_first() {
        rest = match first {
            b' ' | b'\n' => after,
            b';' => line_end(after),
            _ => return rest,
        };
    }
    rest
}

// The value of a hex digit, which is no capital letter.
fn digit(byte: u8) -> Option<u8>
    ensures { IfSome result (λ value. value < 16) }
{
    match byte {
        b'0'..=b'9' => Some(byte - b'0'),
        b'a'..=b'f' => Some(byte - b'a' + 10),
        _ => None,
    }
}

// The byte of two hex digits.
pub fn pair(text: &[u8]) -> Option<(u8, &[u8])>
    ensures { IfSome result (λ found. (found.1.now ≡ drop 2 text.now) × (length found.1.now + 2 ≡ length text.now)) }
{
    let ([high, low], rest) = text.split_first_chunk::<2>()?;
    Some((digit(*high)? * 16 + digit(*low)?, rest))
}

// How often a byte is meant that ends here: once, unless a * and a number follow.
pub fn times(text: &[u8]) -> Option<(usize, &[u8])>
    ensures { IfSome result (λ found. IsRest text.now found.1.now) }
{
    let Some(number) = text.strip_prefix(b"*") else {
        return Some((1, text));
    };
    let length = number
        .iter()
        .take_while(|byte| byte.is_ascii_digit())
        .count();
    let (digits, rest) = number.split_at(length);
    let count = str::from_utf8(digits).ok()?.parse().ok()?;
    if count == 0 {
        return None;
    }
    Some((count, rest))
}
