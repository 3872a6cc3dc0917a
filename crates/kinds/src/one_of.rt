ghost use Rattle.std.specs.Prelude.{◌≡◌, ℕ};
ghost use Rattle.kind.specs.Kinds.{Told, Checked, Spelled};
ghost use Rattle.kinds.specs.Texts.{among, one_of, one_of_laws};

use super::refuse::no_reading;
use kind::Kind;
use refusal::fault::Fault;

// One byte of a short list.
#[derive(Clone, Copy)]
pub struct OneOf {
    pub bytes: &'static [u8],
}

// Whether the byte stands in the list.
fn is_among(byte: u8, list: &[u8]) -> bool
    ensures { result ≡ among byte list.now }
{
    list.contains(&byte)
}

// The byte of the list that the bytes are.
fn byte_in(list: &[u8], s: &[u8]) -> Option<u8>
    ensures { result ≡ one_of list.now s.now }
{
    if s.len() == 1 && is_among(s[0], list) {
        Some(s[0])
    } else {
        None
    }
}

impl<'a> Kind<'a> for OneOf {
    type Value = u8;

    ghost Val = { ℕ };

    ghost view = { λ v. v };

    ghost wide = { λ _. 1 };

    ghost reads = { λ k. one_of k.bytes.now };

    ghost laws = { λ k. one_of_laws k.bytes.now };

    fn width(&self) -> usize {
        1
    }

    fn check(&self, s: &[u8]) -> Result<(), Fault> {
        byte_in(self.bytes, s).ok_or(no_reading())?;
        Ok(())
    }

    fn read(&self, s: &'a [u8]) -> Result<u8, Fault> {
        byte_in(self.bytes, s).ok_or(no_reading())
    }

    fn spell(&self, value: &u8, out: &mut [u8]) -> Result<(), Fault> {
        if out.len() != 1 || !is_among(*value, self.bytes) {
            return Err(no_reading());
        }
        out[0] = *value;
        Ok(())
    }
}
