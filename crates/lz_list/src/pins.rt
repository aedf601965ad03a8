//! Pin words.
ghost use Rattle.std.specs.Prelude.{◌≡◌, ◌+◌, ◌^◌, None, Some, if◌then◌else◌, nat_lt};

/// The pin value at which a pass is worn.
pub const LAST_PIN: u64 = 1 << 62;

/// The pin value that follows; none where the pass is worn.
pub fn next_pin(pin: u64) -> Option<u64>
    ensures { result ≡ (if nat_lt pin (2 ^ 62) then Some (pin + 1) else None) }
{
    if pin < LAST_PIN { Some(pin + 1) } else { None }
}
