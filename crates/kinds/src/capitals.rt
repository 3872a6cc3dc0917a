ghost use Rattle.std.specs.Prelude.{◌≡◌, ℕ, List};
ghost use Rattle.kind.specs.Kinds.{Told, Checked, Spelled};
ghost use Rattle.kinds.specs.Texts.{is_capitals, capitals, capitals_laws};

use super::capital::{Capitals, Letters};
use super::refuse::no_reading;
use super::scan::each_within;
use kind::Kind;
use refusal::fault::Fault;

// Whether the bytes are capitals of the width.
fn are_capitals(width: usize, s: &[u8]) -> bool
    ensures { result ≡ is_capitals width s.now }
{
    s.len() == width && each_within(s, b'A', b'Z')
}

// Beside Text: the functions differ by the test and by the type of value, and one impl over both would need a trait for the two.
impl<'a> Kind<'a> for Capitals {
    type Value = Letters<'a>;

    ghost Val = { List ℕ };

    ghost view = { λ v. v.0.now };

    ghost wide = { λ k. k.width };

    ghost reads = { λ k. capitals k.width };

    ghost laws = { λ k. capitals_laws k.width k.some k.few };

    fn width(&self) -> usize
        ensures { result ≡ self.now.width }
    {
        self.width
    }

    fn check(&self, s: &[u8]) -> Result<(), Fault>
        ensures { Checked (capitals self.now.width) s.now result }
    {
        if are_capitals(self.width, s) {
            Ok(())
        } else {
            Err(no_reading())
        }
    }

    fn read(&self, s: &'a [u8]) -> Result<Letters<'a>, Fault> {
        if are_capitals(self.width, s) {
            Ok(Letters(s))
        } else {
            Err(no_reading())
        }
    }

    fn spell(&self, value: &Letters<'a>, out: &mut [u8]) -> Result<(), Fault> {
        if out.len() != self.width || !are_capitals(self.width, value.0) {
            return Err(no_reading());
        }
        out.copy_from_slice(value.0);
        Ok(())
    }
}
