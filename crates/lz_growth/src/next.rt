//! The number of slots that a file that grows is raised to.
ghost use Rattle.std.specs.Prelude.{◌≡◌, ◌⊎◌, ℕ, ◌^◌, ◌≤◌, ◌<◌, MatchOption};
ghost use Rattle.lz_slot.specs.Limits.{most_slots};
ghost use Rattle.lz_growth.specs.Growths.{IsRaise};
ghost use Rattle.lz_growth.specs.Nexts.{IsGreatestAt, IsNext};

use lz_slot::MOST_SLOTS;

/// To how many slots a file of `from` slots is raised that may have so many at most: the most that one byte of the number leads to, up
/// to one more than twice as many, so that 2^k - 1 is doubled for ever. None where no raise leads to so few.
pub fn next_count(from: u64, most: u64) -> Option<u64>
    ensures { MatchOption result ((x : ℕ) → IsRaise from x → most < x) (IsNext from most) }
{
    let most = most.min(MOST_SLOTS);
    if from == 0 || most <= from {
        return None;
    }
    let to = greatest_count(from, most.min(2 * from + 1));
    if to > from { Some(to) } else { None }
}

// The greatest number up to this one that a raise leads to, or the one that it begins with.
fn greatest_count(from: u64, most: u64) -> u64
    requires some { 1 ≤ from }
    requires range { from ≤ most }
    requires few { most ≤ most_slots }
    ensures raise { (result ≡ from) ⊎ IsRaise from result }
    ensures within { result ≤ most }
    ensures greatest { (x : ℕ) → IsRaise from x → x ≤ most → x ≤ result }
{
    let mut best = from;
    for byte in 0..8 {
        best = best.max(greatest_at(from, most, byte));
    }
    best
}

// The greatest number up to this one that differs in this byte alone.
fn greatest_at(from: u64, most: u64, byte: u32) -> u64
    requires byte { byte < 8 }
    requires range { from ≤ most }
    requires few { most ≤ most_slots }
    ensures { IsGreatestAt byte from most result }
{
    let worth = worth_of(byte);
    let left = 255 - from / worth % 256;
    from + left.min((most - from) / worth) * worth
}

// What one more in this byte makes of a number.
fn worth_of(byte: u32) -> u64
    requires { byte < 8 }
    ensures { result ≡ 256 ^ byte }
{
    1 << (8 * byte)
}
