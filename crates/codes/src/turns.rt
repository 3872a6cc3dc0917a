ghost use Rattle.std.specs.Prelude.{Some};
ghost use Rattle.kind.specs.Compounds.{names_composed};
ghost use Rattle.codes.specs.declared.turn.Turn.{Turn};
ghost use Rattle.codes.specs.Turns.{Parts, in_parts, made, parts, turn, names, parts_laws};

use crate::letter::Letter;
use crate::turn::{Turn, Turns};
use kind::compound::Compound;
use kinds::layers::{Both, Either, OrElse, Then};
use kinds::number::Number;

impl<'a> Compound<'a> for Turns {
    type Parts = OrElse<Number, Then<Letter, Number>>;

    type Value = Turn;

    ghost Val = { Turn };

    ghost view = { λ v. v };

    ghost Pieces = { Parts };

    ghost seen = { λ p. p };

    ghost built = { λ p. Some (made p) };

    ghost pieces_of = { parts };

    ghost wide = { λ _. 2 };

    ghost in_pieces = { λ k. in_parts k.low k.high };

    ghost reads = { λ k. turn k.low k.high };

    ghost composed = { λ k. names_composed (names k.low k.high) (parts_laws k.low k.high) };

    fn parts(&self) -> OrElse<Number, Then<Letter, Number>> {
        let digit = Number {
            width: 1,
            low: 1,
            high: 9,
        };
        OrElse {
            first: Number {
                width: 2,
                low: self.low,
                high: self.high,
            },
            second: Then {
                first: Letter,
                second: digit,
            },
        }
    }

    fn build(&self, pieces: Either<u64, Both<u8, u64>>) -> Option<Turn> {
        Some(match pieces {
            Either::First(n) => Turn::Number(n),
            Either::Second(Both { front, back }) => Turn::Lettered {
                letter: front,
                digit: back,
            },
        })
    }

    fn split(&self, value: &Turn) -> Either<u64, Both<u8, u64>> {
        match *value {
            Turn::Number(n) => Either::First(n),
            Turn::Lettered { letter, digit } => Either::Second(Both {
                front: letter,
                back: digit,
            }),
        }
    }
}
