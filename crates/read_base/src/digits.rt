//! The number that digits write, up to a greatest one.

ghost use Rattle.read_base.specs.Digits.{number_behind, number_within};
ghost use Rattle.std.specs.Char.{is_ascii_digit};
ghost use Rattle.std.specs.Prelude.{◌≡◌, ◌≤◌, ◌+◌, ◌-◌, ◌*◌, true, None, Some, if◌then◌else◌, nat_le, IfSome};

/// A number with one more digit, if it is at most so great.
fn with_digit(most: u64, n: u64, digit: u8) -> Option<u64>
    requires { is_ascii_digit digit ≡ true }
    ensures { result ≡ (if nat_le (n * 10 + (digit - 48)) most then Some (n * 10 + (digit - 48)) else None) }
{
    let more = n.checked_mul(10)?.checked_add(u64::from(digit - b'0'))?;
    if more > most {
        return None;
    }
    Some(more)
}

/// The number that digits write behind those of a number. None where a byte is no digit, or the number is above `most`. Takes no memory.
pub fn number_behind(most: u64, before: u64, digits: &[u8]) -> Option<u64>
    ensures is { result ≡ number_behind most before digits.now }
    ensures most { IfSome result (λ n. n ≤ most) }
{
    if before > most {
        return None;
    }
    let mut n = before;
    let mut rest = digits;
    while let Some((byte, after)) = rest.split_first() {
        if !byte.is_ascii_digit() {
            return None;
        }
        let Some(more) = with_digit(most, n, *byte) else {
            return None;
        };
        n = more;
        rest = after;
    }
    Some(n)
}

/// The number that digits write, where no digits write 0. None where a byte is no digit, or the number is above `most`. Takes no memory.
#[tactic(auto, unfolding(crate::specs::Digits::number_within))]
pub fn number_within(most: u64, digits: &[u8]) -> Option<u64>
    ensures is { result ≡ number_within most digits.now }
    ensures most { IfSome result (λ n. n ≤ most) }
{
    number_behind(most, 0, digits)
}
