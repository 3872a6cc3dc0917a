ghost use Rattle.std.specs.Prelude.{Some};
ghost use Rattle.kind.specs.Compounds.{names_composed};
ghost use Rattle.fields.specs.declared.spacing.PixelSpacing.{PixelSpacing};
ghost use Rattle.fields.specs.Spacings.{Parts, in_parts, made, parts, spacing, names, parts_laws};

use super::spacing::{PixelSpacing, PixelSpacings};
use kind::compound::Compound;
use kinds::layers::{Either, OrElse};
use kinds::point::{Decimal, Point};
use kinds::word::Word;

impl<'a> Compound<'a> for PixelSpacings {
    type Parts = OrElse<Point, OrElse<Point, Word<'static>>>;

    type Value = PixelSpacing;

    ghost Val = { PixelSpacing };

    ghost view = { λ v. v };

    ghost Pieces = { Parts };

    ghost seen = { λ p. p };

    ghost built = { λ p. Some (made p) };

    ghost pieces_of = { parts };

    ghost wide = { λ _. 7 };

    ghost in_pieces = { λ k. in_parts k.low k.high };

    ghost reads = { λ k. spacing k.low k.high };

    ghost composed = { λ k. names_composed (names k.low k.high) (parts_laws k.low k.high) };

    fn parts(&self) -> OrElse<Point, OrElse<Point, Word<'static>>> {
        let fine = Point {
            whole: 2,
            places: 4,
            low: self.low,
            high: self.high,
        };
        let coarse = Point {
            whole: 4,
            places: 2,
            low: self.low,
            high: self.high,
        };
        OrElse {
            first: fine,
            second: OrElse {
                first: coarse,
                second: Word { bytes: b"0000000" },
            },
        }
    }

    fn build(&self, pieces: Either<Decimal, Either<Decimal, ()>>) -> Option<PixelSpacing> {
        Some(match pieces {
            Either::First(d) => PixelSpacing::Fine(d),
            Either::Second(Either::First(d)) => PixelSpacing::Coarse(d),
            Either::Second(Either::Second(())) => PixelSpacing::Unknown,
        })
    }

    fn split(&self, value: &PixelSpacing) -> Either<Decimal, Either<Decimal, ()>> {
        match *value {
            PixelSpacing::Fine(d) => Either::First(d),
            PixelSpacing::Coarse(d) => Either::Second(Either::First(d)),
            PixelSpacing::Unknown => Either::Second(Either::Second(())),
        }
    }
}
