ghost use Rattle.std.specs.Prelude.{◌≡◌, ◌+◌, ◌^◌, ◌<◌, ℤ, pos, neg_ℤ};
ghost use Rattle.kind.specs.Kinds.{Told, Checked, Spelled};
ghost use Rattle.kinds.specs.Numbers.{number};
ghost use Rattle.kinds.specs.Signs.{led, signed, signed_laws};

use super::digits::number_in;
use super::number::Number;
use super::refuse::no_reading;
use super::sign::Signed;
use kind::Kind;
use refusal::fault::Fault;

// The casts are functions, so that what a cast of 64 bits gives is shown once and not in each branch.
fn plus_of(n: u64) -> i64
    requires { n < 10 ^ 18 }
    ensures { result ≡ pos n }
{
    n as i64
}

fn minus_of(n: u64) -> i64
    requires { n < 10 ^ 18 }
    ensures { result ≡ neg_ℤ (pos n) }
{
    -(n as i64)
}

// The number with a sign that the bytes read as. The sizes are written out: as methods (tried) they have contracts that each
// proof must first take apart.
fn signed_in(k: &Signed, s: &[u8]) -> Option<i64>
    ensures { result ≡ signed k.now.digits k.now.below k.now.above s.now }
{
    let (sign, size) = s.split_first()?;
    if *sign == b'+' {
        let n = number_in(
            &Number {
                width: k.digits,
                low: 0,
                high: k.above,
            },
            size,
        )?;
        Some(plus_of(n))
    } else if *sign == b'-' {
        let n = number_in(
            &Number {
                width: k.digits,
                low: 1,
                high: k.below,
            },
            size,
        )?;
        Some(minus_of(n))
    } else {
        None
    }
}

// Writes a sign and the digits of a number behind it.
fn put_signed(sign: u8, k: &Number, size: u64, out: &mut [u8]) -> Result<(), Fault>
    requires { 0 < sign }
    ensures { Spelled (led sign (number k.now.width k.now.low k.now.high)) size out.old out.new result }
{
    if out.len() != k.width + 1 {
        return Err(no_reading());
    }
    k.spell(&size, &mut out[1..])?;
    out[0] = sign;
    Ok(())
}

impl<'a> Kind<'a> for Signed {
    type Value = i64;

    ghost Val = { ℤ };

    ghost view = { λ v. v };

    ghost wide = { λ k. k.digits + 1 };

    ghost reads = { λ k. signed k.digits k.below k.above };

    ghost laws = { λ k. signed_laws k.digits k.below k.above k.some k.few };

    fn width(&self) -> usize {
        self.digits + 1
    }

    fn check(&self, s: &[u8]) -> Result<(), Fault> {
        signed_in(self, s).ok_or(no_reading())?;
        Ok(())
    }

    fn read(&self, s: &'a [u8]) -> Result<i64, Fault> {
        signed_in(self, s).ok_or(no_reading())
    }

    fn spell(&self, value: &i64, out: &mut [u8]) -> Result<(), Fault> {
        let v = *value;
        let size = v.unsigned_abs();
        if v < 0 {
            put_signed(
                b'-',
                &Number {
                    width: self.digits,
                    low: 1,
                    high: self.below,
                },
                size,
                out,
            )
        } else {
            put_signed(
                b'+',
                &Number {
                    width: self.digits,
                    low: 0,
                    high: self.above,
                },
                size,
                out,
            )
        }
    }
}
