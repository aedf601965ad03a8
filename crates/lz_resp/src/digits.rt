//! Numbers of one or two digits, as most of those in frames are.
ghost use Rattle.std.specs.Prelude.{◌≡◌, ◌≤◌, ◌<◌, ◌++◌, IfSome, decimal, length};
ghost use Rattle.lz_resp.specs.Digits.{digit_of};
ghost use Rattle.lz_resp.specs.Frames.{line_end};

/// The number that a first line of one or two digits tells, and what follows the line. There is none where the line is another.
#[inline(always)]
pub(crate) fn read_short(text: &[u8]) -> Option<(usize, &[u8])>
    ensures number { IfSome result (λ p. (text.now ≡ decimal p.0 ++ line_end ++ p.1.now) × (p.0 < 100)) }
    ensures inside { IfSome result (λ p. length p.1.now ≤ length text.now) }
{
    match read_one(text) {
        Some(found) => Some(found),
        None => read_two(text),
    }
}

// The same of one digit.
fn read_one(text: &[u8]) -> Option<(usize, &[u8])>
    ensures number { IfSome result (λ p. (text.now ≡ decimal p.0 ++ line_end ++ p.1.now) × (p.0 < 100)) }
    ensures inside { IfSome result (λ p. length p.1.now ≤ length text.now) }
{
    let [units, b'\r', b'\n', rest @ ..] = text else {
        return None;
    };
    let units = digit_of(*units)?;
    Some((units as usize, rest))
}

// The same of two digits.
fn read_two(text: &[u8]) -> Option<(usize, &[u8])>
    ensures number { IfSome result (λ p. (text.now ≡ decimal p.0 ++ line_end ++ p.1.now) × (p.0 < 100)) }
    ensures inside { IfSome result (λ p. length p.1.now ≤ length text.now) }
{
    let [tens, units, b'\r', b'\n', rest @ ..] = text else {
        return None;
    };
    let (tens, units) = (digit_of(*tens)?, digit_of(*units)?);
    if tens == 0 {
        return None;
    }
    Some(((10 * tens + units) as usize, rest))
}

/// The number of which a byte is the digit.
pub(crate) fn digit_of(byte: u8) -> Option<u8>
    ensures digit { result ≡ digit_of byte }
    ensures range { IfSome result (λ digit. digit ≤ 9) }
{
    match byte {
        b'0'..=b'9' => Some(byte - b'0'),
        _ => None,
    }
}
