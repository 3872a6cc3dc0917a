ghost use Rattle.std.specs.Prelude.{Some};
ghost use Rattle.kind.specs.Compounds.{names_composed};
ghost use Rattle.fields.specs.declared.accuracy.Accuracy.{Accuracy};
ghost use Rattle.fields.specs.Accuracies.{Parts, in_parts, made, parts, accuracy, names, parts_laws};

use super::accuracy::{Accuracies, Accuracy};
use kind::compound::Compound;
use kinds::layers::{Either, OrElse};
use kinds::point::{Decimal, Point};
use kinds::word::Word;

impl<'a> Compound<'a> for Accuracies {
    type Parts = OrElse<Point, OrElse<Word<'static>, Word<'static>>>;

    type Value = Accuracy;

    ghost Val = { Accuracy };

    ghost view = { λ v. v };

    ghost Pieces = { Parts };

    ghost seen = { λ p. p };

    ghost built = { λ p. Some (made p) };

    ghost pieces_of = { parts };

    ghost wide = { λ _. 6 };

    ghost in_pieces = { λ k. in_parts k.low k.high };

    ghost reads = { λ k. accuracy k.low k.high };

    ghost composed = { λ k. names_composed (names k.low k.high) (parts_laws k.low k.high) };

    fn parts(&self) -> OrElse<Point, OrElse<Word<'static>, Word<'static>>> {
        let known = Point {
            whole: 3,
            places: 2,
            low: self.low,
            high: self.high,
        };
        OrElse {
            first: known,
            second: OrElse {
                first: Word { bytes: b"000.00" },
                second: Word { bytes: b"000000" },
            },
        }
    }

    fn build(&self, pieces: Either<Decimal, Either<(), ()>>) -> Option<Accuracy> {
        Some(match pieces {
            Either::First(d) => Accuracy::Known(d),
            Either::Second(Either::First(())) => Accuracy::ZeroPoint,
            Either::Second(Either::Second(())) => Accuracy::Zeros,
        })
    }

    fn split(&self, value: &Accuracy) -> Either<Decimal, Either<(), ()>> {
        match *value {
            Accuracy::Known(d) => Either::First(d),
            Accuracy::ZeroPoint => Either::Second(Either::First(())),
            Accuracy::Zeros => Either::Second(Either::Second(())),
        }
    }
}
