ghost use Rattle.std.specs.Prelude.{◌≡◌, ℕ, List};
ghost use Rattle.kind.specs.Kinds.{Told, Checked, Spelled};
ghost use Rattle.kinds.specs.Texts.{is_text, text, text_laws};

use super::refuse::no_reading;
use super::scan::{all_spaces, each_within};
use super::text::{Text, TextBytes};
use kind::Kind;
use refusal::fault::Fault;

// Whether the bytes are a text of the width.
fn is_text(width: usize, s: &[u8]) -> bool
    ensures { result ≡ is_text width s.now }
{
    s.len() == width && each_within(s, b' ', b'~') && !all_spaces(s)
}

impl<'a> Kind<'a> for Text {
    type Value = TextBytes<'a>;

    ghost Val = { List ℕ };

    ghost view = { λ v. v.0.now };

    ghost wide = { λ k. k.width };

    ghost reads = { λ k. text k.width };

    ghost laws = { λ k. text_laws k.width k.some k.few };

    fn width(&self) -> usize
        ensures { result ≡ self.now.width }
    {
        self.width
    }

    fn check(&self, s: &[u8]) -> Result<(), Fault>
        ensures { Checked (text self.now.width) s.now result }
    {
        if is_text(self.width, s) {
            Ok(())
        } else {
            Err(no_reading())
        }
    }

    fn read(&self, s: &'a [u8]) -> Result<TextBytes<'a>, Fault> {
        if is_text(self.width, s) {
            Ok(TextBytes(s))
        } else {
            Err(no_reading())
        }
    }

    fn spell(&self, value: &TextBytes<'a>, out: &mut [u8]) -> Result<(), Fault> {
        if out.len() != self.width || !is_text(self.width, value.0) {
            return Err(no_reading());
        }
        out.copy_from_slice(value.0);
        Ok(())
    }
}
