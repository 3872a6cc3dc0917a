ghost use Rattle.std.specs.Prelude.{Some, length};
ghost use Rattle.kind.specs.Compounds.{Agrees};
ghost use Rattle.kinds.specs.Layers.{either};
ghost use Rattle.kinds.specs.Texts.{text, word};
ghost use Rattle.fields.specs.Themselves.{composed_of_itself};
ghost use Rattle.fields.specs.Names.{Named, seen_parts, seen_name, named, named_laws};

use super::name::{Name, Names};
use kind::compound::Compound;
use kinds::layers::{Either, OrElse};
use kinds::text::{Text, TextBytes};
use kinds::word::Word;

impl<'a> Compound<'a> for Names {
    type Parts = OrElse<Word<'static>, Text>;

    type Value = Name<'a>;

    ghost Val = { Named };

    ghost view = { seen_name };

    ghost Pieces = { Named };

    ghost seen = { seen_parts };

    ghost built = { λ p. Some p };

    ghost pieces_of = { λ v. v };

    ghost wide = { λ k. length k.none.bytes.now };

    ghost in_pieces = { λ k. named k.none.bytes.now };

    ghost reads = { λ k. named k.none.bytes.now };

    ghost composed = { λ k. composed_of_itself (named_laws k.none.bytes.now k.none.some k.none.few) };

    // The trait's clause, written out: the check cannot give it where a value borrows.
    #[tactic(auto, unfolding(crate::specs::Names::named))]
    fn parts(&self) -> OrElse<Word<'static>, Text>
        ensures { Agrees (length result.first.bytes.now) seen_parts (either (length result.first.bytes.now) (word result.first.bytes.now) (text result.second.width)) (length self.now.none.bytes.now) seen_parts (named self.now.none.bytes.now) }
    {
        let text = Text {
            width: self.none.bytes.len(),
        };
        OrElse {
            first: self.none,
            second: text,
        }
    }

    fn build(&self, pieces: Either<(), TextBytes<'a>>) -> Option<Name<'a>> {
        Some(match pieces {
            Either::First(()) => Name::Unavailable,
            Either::Second(text) => Name::Given(text),
        })
    }

    fn split(&self, value: &Name<'a>) -> Either<(), TextBytes<'a>> {
        match *value {
            Name::Unavailable => Either::First(()),
            Name::Given(text) => Either::Second(text),
        }
    }
}
