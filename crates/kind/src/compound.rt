ghost use Rattle.std.specs.Prelude.{◌≡◌, ℕ, List, Some, None, Option, MatchOption};
ghost use Rattle.kind.specs.Kinds.{Told, Checked, Spelled};
ghost use Rattle.kind.specs.Compounds.{Agrees, Composed, composed_laws};

use crate::Kind;
use refusal::fault::{Cause, Fault};
use std::marker::PhantomData;

// A description of a kind that is made up of others, its parts: a value is built of what the parts read, and split into it.
pub trait Compound<'a> {
    type Parts: Kind<'a> + Drop;

    type Value: Drop;

    // what the compound reads, as a reader of contracts sees it
    ghost Val: { Type 0 };

    ghost view: { Self.Value → Val };

    // what the parts read, as a reader of contracts sees it
    ghost Pieces: { Type 0 };

    ghost seen: { Self.Parts.Value → Pieces };

    ghost built: { Pieces → Option Val };

    ghost pieces_of: { Val → Pieces };

    ghost wide: { Self → ℕ };

    ghost in_pieces: { Self → List ℕ → Option Pieces };

    ghost reads: { Self → List ℕ → Option Val };

    ghost composed: { (k : Self) → Composed (wide k) built pieces_of (in_pieces k) (reads k) };

    fn parts(&self) -> Self::Parts
        ensures { Agrees (Self.Parts.Kind.wide result) Self.Parts.Kind.view (Self.Parts.Kind.reads result) (wide self.now) seen (in_pieces self.now) };

    // The value that the pieces make. Pieces that were read make one.
    fn build(&self, pieces: <Self::Parts as Kind<'a>>::Value) -> Option<Self::Value>
        ensures { MatchOption result (built (seen pieces) ≡ None) (λ v. built (seen pieces) ≡ Some (view v)) };

    fn split(&self, value: &Self::Value) -> <Self::Parts as Kind<'a>>::Value
        ensures { seen result ≡ pieces_of (view value.now) };
}

// The kind that a compound describes. The lifetime is that of the bytes which its values may be parts of.
#[derive(Clone, Copy)]
pub struct Built<'a, C> {
    compound: C,
    bytes: PhantomData<&'a u8>,
}

impl<'a, C> Built<'a, C> {
    pub fn of(compound: C) -> Built<'a, C>
        ensures { result.compound ≡ compound }
    {
        Built {
            compound,
            bytes: PhantomData,
        }
    }
}

impl<'a, C: Compound<'a>> Kind<'a> for Built<'a, C> {
    type Value = C::Value;

    ghost Val = { C.Val };

    ghost view = { C.view };

    ghost wide = { λ k. C.wide k.compound };

    ghost reads = { λ k. C.reads k.compound };

    ghost laws = { λ k. composed_laws (C.composed k.compound) };

    fn width(&self) -> usize
        ensures { result ≡ C.wide self.now.compound }
    {
        self.compound.parts().width()
    }

    fn check(&self, s: &[u8]) -> Result<(), Fault>
        ensures { Checked (C.reads self.now.compound) s.now result }
    {
        self.compound.parts().check(s)
    }

    fn read(&self, s: &'a [u8]) -> Result<C::Value, Fault>
        ensures { Told C.view (C.reads self.now.compound) s.now result }
    {
        let pieces = self.compound.parts().read(s)?;
        self.compound
            .build(pieces)
            .ok_or(Fault::new(Cause::Unread, 0))
    }

    fn spell(&self, value: &C::Value, out: &mut [u8]) -> Result<(), Fault>
        ensures { Spelled (C.reads self.now.compound) (C.view value.now) out.old out.new result }
    {
        let pieces = self.compound.split(value);
        self.compound.parts().spell(&pieces, out)
    }
}
