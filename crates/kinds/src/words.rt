ghost use Rattle.std.specs.Prelude.{◌≡◌, length};
ghost use Rattle.std.specs.Str.{bytes_eq};
ghost use Rattle.kind.specs.Kinds.{Told, Checked, Spelled};
ghost use Rattle.kinds.specs.Texts.{word, word_laws};

use super::refuse::no_reading;
use super::word::Word;
use kind::Kind;
use refusal::fault::Fault;

// == by a name: its contract says the comparison of lists that the definitions use.
pub fn same(s: &[u8], t: &[u8]) -> bool
    ensures { result ≡ bytes_eq s.now t.now }
{
    s == t
}

impl<'a, 'w> Kind<'a> for Word<'w> {
    type Value = ();

    ghost Val = { Unit {0} };

    ghost view = { λ v. v };

    ghost wide = { λ k. length k.bytes.now };

    ghost reads = { λ k. word k.bytes.now };

    ghost laws = { λ k. word_laws k.bytes.now k.some k.few };

    fn width(&self) -> usize {
        self.bytes.len()
    }

    fn check(&self, s: &[u8]) -> Result<(), Fault> {
        if same(s, self.bytes) {
            Ok(())
        } else {
            Err(no_reading())
        }
    }

    fn read(&self, s: &'a [u8]) -> Result<(), Fault> {
        self.check(s)
    }

    fn spell(&self, value: &(), out: &mut [u8]) -> Result<(), Fault> {
        if out.len() != self.bytes.len() {
            return Err(no_reading());
        }
        out.copy_from_slice(self.bytes);
        Ok(())
    }
}
