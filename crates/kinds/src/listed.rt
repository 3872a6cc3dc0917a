ghost use Rattle.std.specs.Prelude.{◌≡◌, ℕ, List};
ghost use Rattle.kind.specs.Kinds.{Told, Checked, Spelled};
ghost use Rattle.kinds.specs.Listing.{Spelt, listed, listed_laws};

use super::refuse::no_reading;
use super::words::same;
use kind::Kind;
use refusal::fault::Fault;

// A list of named values that each have a fixed spelling, all of one width.
pub trait Listed {
    type Code: Copy;

    ghost span: { ℕ };

    ghost letters: { Self.Code → List ℕ };

    ghost spelt: { Spelt span letters };

    ghost every: { Self → List Self.Code };

    fn span(&self) -> usize
        ensures { result ≡ span };

    fn letters(&self, code: Self::Code) -> &'static [u8]
        ensures { result.now ≡ letters code };

    fn every(&self) -> &[Self::Code]
        ensures { result.now ≡ every self.now };
}

// One of the values of a list, by its spelling.
#[derive(Clone, Copy)]
pub struct Codes<L> {
    pub list: L,
}

// The value of the list that the bytes spell.
fn find<L: Listed>(list: &L, s: &[u8]) -> Option<L::Code>
    ensures { result ≡ listed L.Listed.letters (L.Listed.every list.now) s.now }
{
    list.every()
        .iter()
        .copied()
        .find(|code| same(s, list.letters(*code)))
}

impl<'a, L: Listed> Kind<'a> for Codes<L> {
    type Value = L::Code;

    ghost Val = { L.Code };

    ghost view = { λ v. v };

    ghost wide = { λ _. L.Listed.span };

    ghost reads = { λ k. listed L.Listed.letters (L.Listed.every k.list) };

    ghost laws = { λ k. listed_laws L.Listed.spelt (L.Listed.every k.list) };

    fn width(&self) -> usize {
        self.list.span()
    }

    fn check(&self, s: &[u8]) -> Result<(), Fault> {
        find(&self.list, s).ok_or(no_reading())?;
        Ok(())
    }

    fn read(&self, s: &'a [u8]) -> Result<L::Code, Fault> {
        find(&self.list, s).ok_or(no_reading())
    }

    fn spell(&self, value: &L::Code, out: &mut [u8]) -> Result<(), Fault> {
        let letters = self.list.letters(*value);
        if out.len() != letters.len() {
            return Err(no_reading());
        }
        self.check(letters)?;
        out.copy_from_slice(letters);
        Ok(())
    }
}
