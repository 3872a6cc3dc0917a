ghost use Rattle.std.specs.Prelude.{ℕ};
ghost use Rattle.codes.specs.Letters.{letter, letter_laws};

use kind::Kind;
use kinds::refuse::no_reading;
use refusal::fault::Fault;

// One capital letter A to Z.
#[derive(Clone, Copy)]
pub struct Letter;

impl<'a> Kind<'a> for Letter {
    type Value = u8;

    ghost Val = { ℕ };

    ghost view = { λ v. v };

    ghost wide = { λ _. 1 };

    ghost reads = { λ _. letter };

    ghost laws = { λ _. letter_laws };

    fn width(&self) -> usize {
        1
    }

    fn check(&self, s: &[u8]) -> Result<(), Fault> {
        self.read(s)?;
        Ok(())
    }

    #[tactic(auto, unfolding(crate::specs::Letters::letter))]
    fn read(&self, s: &'a [u8]) -> Result<u8, Fault> {
        match s {
            [c @ b'A'..=b'Z'] => Ok(*c),
            _ => Err(no_reading()),
        }
    }

    #[tactic(auto, using(crate::specs::Letters::letter_is), unfolding(crate::specs::Letters::letter))]
    fn spell(&self, value: &u8, out: &mut [u8]) -> Result<(), Fault> {
        match (out, *value) {
            ([place], byte @ b'A'..=b'Z') => {
                *place = byte;
                Ok(())
            }
            _ => Err(no_reading()),
        }
    }
}
