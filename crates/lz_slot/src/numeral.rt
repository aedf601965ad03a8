//! Numbers as texts.
ghost use Rattle.std.specs.Prelude.{◌≡◌, ◌≤◌, All, IfSome};
ghost use Rattle.std.specs.Int.{IsInRange};
ghost use Rattle.std.specs.List.{list_all};
ghost use Rattle.std.specs.Str.Parse.{digits_value};
ghost use Rattle.lz_slot.specs.Numerals.{is_digit, is_number, largest_read, number_in, number_read, within};

/// The number from low up to high of which the text is the plain decimal: digits, with no zero in front unless it stands
/// alone.
pub fn read_number(text: &[u8], low: u64, high: u64) -> Option<u64>
    ensures number { result ≡ number_in low high text.now }
    ensures range { IfSome result (λ number. number ≤ high) }
{
    let number = number_of(text)?;
    if number < low {
        return None;
    }
    if number > high {
        return None;
    }
    Some(number)
}

// The number of which the text is the plain decimal.
fn number_of(text: &[u8]) -> Option<u64>
    ensures { result ≡ number_read text.now }
{
    if !is_number(text) {
        return None;
    }
    value_of(text)
}

// Digits, with no zero in front unless it stands alone.
pub(crate) fn is_number(text: &[u8]) -> bool
    ensures { result ≡ is_number text.now }
{
    if text.is_empty() || text.len() > 1 && text[0] == b'0' {
        return false;
    }
    are_digits(text)
}

fn are_digits(text: &[u8]) -> bool
    ensures { result ≡ list_all is_digit text.now }
{
    text.iter().all(|byte| byte.is_ascii_digit())
}

fn value_of(digits: &[u8]) -> Option<u64>
    requires { All (IsInRange 48 57) digits.now }
    ensures { result ≡ within 0 largest_read (digits_value 10 digits.now) }
{
    let mut number: u64 = 0;
    for digit in digits {
        number = number
            .checked_mul(10)?
            .checked_add(u64::from(*digit - b'0'))?;
    }
    Some(number)
}
