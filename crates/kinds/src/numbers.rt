ghost use Rattle.std.specs.Prelude.{◌≡◌, ℕ};
ghost use Rattle.kind.specs.Kinds.{Told, Checked, Spelled};
ghost use Rattle.kinds.specs.Numbers.{number, number_laws};

use super::digits::{number_in, put_digits};
use super::number::Number;
use super::refuse::no_reading;
use kind::Kind;
use refusal::fault::Fault;

impl<'a> Kind<'a> for Number {
    type Value = u64;

    ghost Val = { ℕ };

    ghost view = { λ v. v };

    ghost wide = { λ k. k.width };

    ghost reads = { λ k. number k.width k.low k.high };

    ghost laws = { λ k. number_laws k.width k.low k.high k.some k.few };

    fn width(&self) -> usize {
        self.width
    }

    fn check(&self, s: &[u8]) -> Result<(), Fault> {
        number_in(self, s).ok_or(no_reading())?;
        Ok(())
    }

    fn read(&self, s: &'a [u8]) -> Result<u64, Fault> {
        number_in(self, s).ok_or(no_reading())
    }

    fn spell(&self, value: &u64, out: &mut [u8]) -> Result<(), Fault> {
        let n = *value;
        if out.len() != self.width
            || n < self.low
            || n > self.high
            || n >= 10u64.pow(self.width as u32)
        {
            return Err(no_reading());
        }
        put_digits(n, out);
        Ok(())
    }
}
