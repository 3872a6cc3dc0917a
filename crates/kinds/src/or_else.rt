ghost use Rattle.std.specs.Prelude.{◌≡◌};
ghost use Rattle.kind.specs.Kinds.{Told, Checked, Spelled};
ghost use Rattle.kinds.specs.declared.layers.Either.{Either};
ghost use Rattle.kinds.specs.Layers.{either, either_laws, seen_either};

use super::layers::{Either, OrElse};
use super::refuse::no_reading;
use kind::Kind;
use refusal::fault::Fault;

impl<'a, K: Kind<'a>, L: Kind<'a>> Kind<'a> for OrElse<K, L> {
    type Value = Either<K::Value, L::Value>;

    ghost Val = { Either K.Kind.Val L.Kind.Val };

    ghost view = { seen_either K.Kind.view L.Kind.view };

    ghost wide = { λ k. K.Kind.wide k.first };

    ghost reads = { λ k. either (K.Kind.wide k.first) (K.Kind.reads k.first) (L.Kind.reads k.second) };

    ghost laws = { λ k. either_laws (K.Kind.laws k.first) (L.Kind.laws k.second) };

    fn width(&self) -> usize {
        self.first.width()
    }

    fn check(&self, s: &[u8]) -> Result<(), Fault> {
        if s.len() != self.first.width() {
            return Err(no_reading());
        }
        // No or_else: the check covers no closure yet that holds on to a kind with a lifetime.
        if let Ok(()) = self.first.check(s) {
            return Ok(());
        }
        self.second.check(s)
    }

    fn read(&self, s: &'a [u8]) -> Result<Either<K::Value, L::Value>, Fault> {
        if s.len() != self.first.width() {
            return Err(no_reading());
        }
        // No map with a constructor: its result would name a lifetime that the check finds in no argument.
        if let Ok(v) = self.first.read(s) {
            return Ok(Either::First(v));
        }
        Ok(Either::Second(self.second.read(s)?))
    }

    fn spell(&self, value: &Either<K::Value, L::Value>, out: &mut [u8]) -> Result<(), Fault> {
        let width = self.first.width();
        if out.len() != width {
            return Err(no_reading());
        }
        match value {
            Either::First(v) => self.first.spell(v, out),
            Either::Second(v) => {
                // The first would answer for what it reads, so such bytes spell no value of the second.
                // No heap: no kind is wider than 999 bytes.
                let mut kept = [0u8; 999];
                let part = &mut kept[0..width];
                self.second.spell(v, part)?;
                // No is_ok: what check promises of an Ok would have to be told from the flag again.
                if let Ok(()) = self.first.check(part) {
                    return Err(no_reading());
                }
                out.copy_from_slice(part);
                Ok(())
            }
        }
    }
}
