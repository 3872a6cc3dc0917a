ghost use Rattle.std.specs.Prelude.{◌≡◌};
ghost use Rattle.kind.specs.Kinds.{Told, Checked, Spelled};

use super::layers::Via;
use kind::Kind;
use refusal::fault::Fault;

// A type of value that stands one to one for the values of some kind, its parts. Beside Compound: the kind below is lent and
// not made anew, so it need not be one that can be copied.
pub trait Made {
    type Parts: Drop;

    type Value: Drop;

    ghost made: { Self.Parts → Self.Value };

    ghost parts: { Self.Value → Self.Parts };

    ghost there: { (p : Self.Parts) → parts (made p) ≡ p };

    ghost back: { (v : Self.Value) → made (parts v) ≡ v };

    fn make(&self, pieces: Self::Parts) -> Self::Value
        ensures { result ≡ made pieces };

    fn split(&self, value: &Self::Value) -> Self::Parts
        ensures { result ≡ parts value.now };
}

impl<'a, K: Kind<'a>, M: Made<Parts = K::Value>> Kind<'a> for Via<K, M> {
    type Value = M::Value;

    ghost Val = { K.Kind.Val };

    ghost view = { λ v. K.Kind.view (M.Made.parts v) };

    ghost wide = { λ k. K.Kind.wide k.below };

    ghost reads = { λ k. K.Kind.reads k.below };

    ghost laws = { λ k. K.Kind.laws k.below };

    fn width(&self) -> usize {
        self.below.width()
    }

    fn check(&self, s: &[u8]) -> Result<(), Fault> {
        self.below.check(s)
    }

    fn read(&self, s: &'a [u8]) -> Result<M::Value, Fault> {
        Ok(self.rule.make(self.below.read(s)?))
    }

    fn spell(&self, value: &M::Value, out: &mut [u8]) -> Result<(), Fault> {
        self.below.spell(&self.rule.split(value), out)
    }
}
