ghost use Rattle.std.specs.Prelude.{◌≡◌, Some, None, MatchOption};
ghost use Rattle.kind.specs.Compounds.{names_composed};
ghost use Rattle.places.specs.declared.signed_point.SignedDecimal.{SignedDecimal};
ghost use Rattle.places.specs.SignedPoints.{wide_with, Parts, in_parts, made, parts, signed_point, names, parts_laws};

use crate::signed_point::{SignedDecimal, SignedPoint};
use kind::compound::Compound;
use kinds::layers::{Both, Either, OrElse, Then};
use kinds::point::{Decimal, Point};
use kinds::word::Word;

type Signed<'a> = Then<Word<'a>, Point>;

impl<'a> Compound<'a> for SignedPoint {
    type Parts = OrElse<Signed<'a>, Signed<'a>>;

    type Value = SignedDecimal;

    ghost Val = { SignedDecimal };

    ghost view = { λ v. v };

    ghost Pieces = { Parts };

    ghost seen = { λ p. p };

    ghost built = { λ p. Some (made p) };

    ghost pieces_of = { parts };

    ghost wide = { λ k. wide_with k.whole k.places };

    ghost in_pieces = { λ k. in_parts k.whole k.places k.high };

    ghost reads = { λ k. signed_point k.whole k.places k.high };

    ghost composed = { λ k. names_composed (names k.whole k.places k.high) (parts_laws k.whole k.places k.high k.some k.few) };

    // Minus zero does not read.
    fn parts(&self) -> OrElse<Signed<'a>, Signed<'a>> {
        let plus = Then {
            first: Word { bytes: b"+" },
            second: Point {
                whole: self.whole,
                places: self.places,
                low: 0,
                high: self.high,
            },
        };
        let minus = Then {
            first: Word { bytes: b"-" },
            second: Point {
                whole: self.whole,
                places: self.places,
                low: 1,
                high: self.high,
            },
        };
        OrElse {
            first: plus,
            second: minus,
        }
    }

    fn build(&self, pieces: Either<Both<(), Decimal>, Both<(), Decimal>>) -> Option<SignedDecimal>
        ensures { MatchOption result (Some (made pieces) ≡ None) (λ v. Some (made pieces) ≡ Some v) }
    {
        Some(match pieces {
            Either::First(Both { front: (), back }) => SignedDecimal::Plus(back),
            Either::Second(Both { front: (), back }) => SignedDecimal::Minus(back),
        })
    }

    fn split(&self, value: &SignedDecimal) -> Either<Both<(), Decimal>, Both<(), Decimal>>
        ensures { result ≡ parts value.now }
    {
        match *value {
            SignedDecimal::Plus(back) => Either::First(Both { front: (), back }),
            SignedDecimal::Minus(back) => Either::Second(Both { front: (), back }),
        }
    }
}
