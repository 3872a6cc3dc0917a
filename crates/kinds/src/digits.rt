ghost use Rattle.std.specs.Prelude.{◌≡◌, ◌+◌, ◌*◌, ◌^◌, ◌<◌, ◌≤◌, true, length};
ghost use Rattle.kinds.specs.Digits.{figures, value, digits};
ghost use Rattle.kinds.specs.Numbers.{number};

use super::number::Number;
use super::scan::each_within;

// Here digits are at most 18, so that they fit 64 bits; each function says so of a slice of its own.

// The number that digits say.
pub(crate) fn value_of(s: &[u8]) -> u64
    requires plain { figures s.now ≡ true }
    requires short { length s.now ≤ 18 }
    ensures { result ≡ value s.now }
{
    let mut sum = 0;
    for b in s {
        sum = sum * 10 + u64::from(*b - b'0');
    }
    sum
}

// The number that digits say with more digits behind them.
pub(crate) fn value_of_two(front: &[u8], back: &[u8]) -> u64
    requires first { figures front.now ≡ true }
    requires second { figures back.now ≡ true }
    requires short { length front.now + length back.now ≤ 18 }
    ensures { result ≡ value front.now * 10 ^ length back.now + value back.now }
{
    value_of(front) * 10u64.pow(back.len() as u32) + value_of(back)
}

// Writes the digits of n over all of `out`, the top digit first.
pub(crate) fn put_digits(n: u64, out: &mut [u8])
    requires fits { n < 10 ^ length out.old }
    requires short { length out.old ≤ 18 }
    ensures { out.new ≡ digits (length out.old) n }
{
    let width = out.len();
    let mut rest = n;
    for (i, byte) in out.iter_mut().enumerate() {
        let power = 10u64.pow((width - 1 - i) as u32);
        *byte = b'0' + (rest / power) as u8;
        rest %= power;
    }
}

// The number that the bytes read as.
pub(crate) fn number_in(k: &Number, s: &[u8]) -> Option<u64>
    ensures { result ≡ number k.now.width k.now.low k.now.high s.now }
{
    if s.len() != k.width || !each_within(s, b'0', b'9') {
        return None;
    }
    let n = value_of(s);
    if n < k.low || n > k.high {
        return None;
    }
    Some(n)
}
