ghost use Rattle.std.specs.Prelude.{◌≡◌};
ghost use Rattle.kind.specs.Kinds.{Told, Checked, Spelled};
ghost use Rattle.kinds.specs.Texts.{empty, empty_laws};

use super::refuse::no_reading;
use super::scan::all_spaces;
use super::space::Spaces;
use kind::Kind;
use refusal::fault::Fault;

impl<'a> Kind<'a> for Spaces {
    type Value = ();

    ghost Val = { Unit {0} };

    ghost view = { λ v. v };

    ghost wide = { λ k. k.width };

    ghost reads = { λ k. empty k.width };

    ghost laws = { λ k. empty_laws k.width k.some k.few };

    fn width(&self) -> usize {
        self.width
    }

    fn check(&self, s: &[u8]) -> Result<(), Fault> {
        if s.len() == self.width && all_spaces(s) {
            Ok(())
        } else {
            Err(no_reading())
        }
    }

    fn read(&self, s: &'a [u8]) -> Result<(), Fault> {
        self.check(s)
    }

    fn spell(&self, value: &(), out: &mut [u8]) -> Result<(), Fault> {
        if out.len() != self.width {
            return Err(no_reading());
        }
        out.fill(b' ');
        Ok(())
    }
}
