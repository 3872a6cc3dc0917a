ghost use Rattle.std.specs.Prelude.{◌≡◌, ◌+◌, ◌-◌, ◌^◌, ◌<◌, ◌≤◌, ◌∷◌, ◌++◌, length};
ghost use Rattle.kind.specs.Kinds.{Told, Checked, Spelled};
ghost use Rattle.kinds.specs.declared.point.Decimal.{Decimal};
ghost use Rattle.kinds.specs.Digits.{digits};
ghost use Rattle.kinds.specs.Points.{point, point_laws};

use super::digits::{put_digits, value_of_two};
use super::point::{Decimal, Point};
use super::refuse::no_reading;
use super::scan::each_within;
use kind::Kind;
use refusal::fault::Fault;

// The number with a point that the bytes read as.
fn point_in(k: &Point, s: &[u8]) -> Option<Decimal>
    ensures { result ≡ point k.now.whole k.now.places k.now.low k.now.high s.now }
{
    let at = k.whole;
    if s.len() != at + 1 + k.places || s[at] != b'.' {
        return None;
    }
    let front = &s[0..at];
    let back = &s[at + 1..];
    if !each_within(front, b'0', b'9') || !each_within(back, b'0', b'9') {
        return None;
    }
    let n = value_of_two(front, back);
    if n < k.low || n > k.high {
        return None;
    }
    Some(Decimal {
        digits: n,
        places: k.places,
    })
}

// Writes digits, a point, and digits to the end of `out`.
fn put_point(front: u64, back: u64, at: usize, out: &mut [u8])
    requires room { at + 1 ≤ length out.old }
    requires short { length out.old ≤ 19 }
    requires first { front < 10 ^ at }
    requires second { back < 10 ^ (length out.old - (at + 1)) }
    ensures { out.new ≡ digits at front ++ (46 ∷ digits (length out.old - (at + 1)) back) }
{
    put_digits(front, &mut out[0..at]);
    out[at] = b'.';
    put_digits(back, &mut out[at + 1..]);
}

impl<'a> Kind<'a> for Point {
    type Value = Decimal;

    ghost Val = { Decimal };

    ghost view = { λ v. v };

    ghost wide = { λ k. k.whole + 1 + k.places };

    ghost reads = { λ k. point k.whole k.places k.low k.high };

    ghost laws = { λ k. point_laws k.whole k.places k.low k.high k.some k.few };

    fn width(&self) -> usize {
        self.whole + 1 + self.places
    }

    fn check(&self, s: &[u8]) -> Result<(), Fault> {
        point_in(self, s).ok_or(no_reading())?;
        Ok(())
    }

    fn read(&self, s: &'a [u8]) -> Result<Decimal, Fault> {
        point_in(self, s).ok_or(no_reading())
    }

    fn spell(&self, value: &Decimal, out: &mut [u8]) -> Result<(), Fault> {
        let n = value.digits;
        let at = self.whole;
        if out.len() != at + 1 + self.places
            || value.places != self.places
            || n < self.low
            || n > self.high
        {
            return Err(no_reading());
        }
        let power = 10u64.pow(self.places as u32);
        if n / power >= 10u64.pow(at as u32) {
            return Err(no_reading());
        }
        put_point(n / power, n % power, at, out);
        Ok(())
    }
}
