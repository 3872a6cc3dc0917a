ghost use Rattle.std.specs.Prelude.{Some};
ghost use Rattle.kind.specs.Compounds.{Agrees};
ghost use Rattle.kinds.specs.Layers.{either};
ghost use Rattle.kinds.specs.Texts.{capitals, word};
ghost use Rattle.fields.specs.Themselves.{composed_of_itself};
ghost use Rattle.fields.specs.Segments.{Ending, seen_parts, seen_segment, segment, segment_laws};

use super::segment::{EndSegment, EndSegments};
use kind::compound::Compound;
use kinds::capital::{Capitals, Letters};
use kinds::layers::{Either, OrElse};
use kinds::word::Word;

impl<'a> Compound<'a> for EndSegments {
    type Parts = OrElse<Capitals, Word<'static>>;

    type Value = EndSegment<'a>;

    ghost Val = { Ending };

    ghost view = { seen_segment };

    ghost Pieces = { Ending };

    ghost seen = { seen_parts };

    ghost built = { λ p. Some p };

    ghost pieces_of = { λ v. v };

    ghost wide = { λ _. 2 };

    ghost in_pieces = { λ _. segment };

    ghost reads = { λ _. segment };

    ghost composed = { λ _. composed_of_itself segment_laws };

    // The trait's clause, written out: the check cannot give it where a value borrows.
    #[tactic(auto, unfolding(crate::specs::Segments::segment))]
    fn parts(&self) -> OrElse<Capitals, Word<'static>>
        ensures { Agrees result.first.width seen_parts (either result.first.width (capitals result.first.width) (word result.second.bytes.now)) 2 seen_parts segment }
    {
        OrElse {
            first: Capitals { width: 2 },
            second: Word { bytes: b"00" },
        }
    }

    fn build(&self, pieces: Either<Letters<'a>, ()>) -> Option<EndSegment<'a>> {
        Some(match pieces {
            Either::First(letters) => EndSegment::Known(letters),
            Either::Second(()) => EndSegment::Unknown,
        })
    }

    fn split(&self, value: &EndSegment<'a>) -> Either<Letters<'a>, ()> {
        match *value {
            EndSegment::Known(letters) => Either::First(letters),
            EndSegment::Unknown => Either::Second(()),
        }
    }
}
