//! Numbers as digits.

ghost use Rattle.std.specs.Prelude.{◌≡◌, ◌+◌, min};
ghost use Rattle.rbg_read.specs.Means.{decimal};
ghost use Rattle.rbg_read.specs.Causes.{is_too_large};

use rbg_game::limits::MAX_NUMBER;

/// The number that the digits spell, or one over the limit where it is over it.
pub fn number(digits: &[u8]) -> u32
    ensures { result ≡ min (decimal digits.now) (MAX_NUMBER + 1) }
{
    let mut number: u32 = 0;
    for digit in digits {
        let next = 10 * number + u32::from(digit.saturating_sub(b'0'));
        number = next.min(MAX_NUMBER + 1);
    }
    number
}

/// Whether the number is over the limit.
pub fn is_too_large(digits: &[u8]) -> bool
    ensures { result ≡ is_too_large digits.now }
{
    number(digits) > MAX_NUMBER
}
