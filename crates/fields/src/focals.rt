ghost use Rattle.std.specs.Prelude.{Some};
ghost use Rattle.kind.specs.Compounds.{names_composed};
ghost use Rattle.fields.specs.declared.focal.FocalLength.{FocalLength};
ghost use Rattle.fields.specs.Focals.{Parts, in_parts, made, parts, focal, names, parts_laws};

use super::focal::{FocalLength, FocalLengths};
use kind::compound::Compound;
use kinds::layers::{Either, OrElse};
use kinds::point::{Decimal, Point};
use kinds::word::Word;

impl<'a> Compound<'a> for FocalLengths {
    type Parts = OrElse<Point, Word<'static>>;

    type Value = FocalLength;

    ghost Val = { FocalLength };

    ghost view = { λ v. v };

    ghost Pieces = { Parts };

    ghost seen = { λ p. p };

    ghost built = { λ p. Some (made p) };

    ghost pieces_of = { parts };

    ghost wide = { λ _. 6 };

    ghost in_pieces = { λ k. in_parts k.low k.high };

    ghost reads = { λ k. focal k.low k.high };

    ghost composed = { λ k. names_composed (names k.low k.high) (parts_laws k.low k.high) };

    fn parts(&self) -> OrElse<Point, Word<'static>> {
        let known = Point {
            whole: 3,
            places: 2,
            low: self.low,
            high: self.high,
        };
        OrElse {
            first: known,
            second: Word { bytes: b"999.99" },
        }
    }

    fn build(&self, pieces: Either<Decimal, ()>) -> Option<FocalLength> {
        Some(match pieces {
            Either::First(d) => FocalLength::Known(d),
            Either::Second(()) => FocalLength::Unavailable,
        })
    }

    fn split(&self, value: &FocalLength) -> Either<Decimal, ()> {
        match *value {
            FocalLength::Known(d) => Either::First(d),
            FocalLength::Unavailable => Either::Second(()),
        }
    }
}
