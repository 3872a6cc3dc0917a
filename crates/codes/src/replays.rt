ghost use Rattle.std.specs.Prelude.{Some};
ghost use Rattle.kind.specs.Compounds.{names_composed};
ghost use Rattle.codes.specs.declared.replay.Replay.{Replay};
ghost use Rattle.codes.specs.Replays.{letters, spelt, modes, Parts, in_parts, made, parts, replay, names, parts_laws};

use crate::replay::{Mode, Modes, Replay, Replays};
use kind::compound::Compound;
use kinds::layers::{Both, Either, OrElse, Then};
use kinds::listed::{Codes, Listed};
use kinds::number::Number;
use kinds::word::Word;

impl Listed for Modes {
    type Code = Mode;

    ghost span = { 1 };

    ghost letters = { letters };

    ghost spelt = { spelt };

    ghost every = { λ _. modes };

    fn span(&self) -> usize {
        1
    }

    fn letters(&self, code: Mode) -> &'static [u8] {
        match code {
            Mode::G => b"G",
            Mode::P => b"P",
            Mode::T => b"T",
        }
    }

    fn every(&self) -> &[Mode] {
        &[Mode::G, Mode::P, Mode::T]
    }
}

impl<'a> Compound<'a> for Replays {
    type Parts = OrElse<Word<'static>, Then<Codes<Modes>, Number>>;

    type Value = Replay;

    ghost Val = { Replay };

    ghost view = { λ v. v };

    ghost Pieces = { Parts };

    ghost seen = { λ p. p };

    ghost built = { λ p. Some (made p) };

    ghost pieces_of = { parts };

    ghost wide = { λ _. 3 };

    ghost in_pieces = { λ _. in_parts };

    ghost reads = { λ _. replay };

    ghost composed = { λ _. names_composed names parts_laws };

    fn parts(&self) -> OrElse<Word<'static>, Then<Codes<Modes>, Number>> {
        let number = Number {
            width: 2,
            low: 1,
            high: 99,
        };
        OrElse {
            first: Word { bytes: b"000" },
            second: Then {
                first: Codes { list: Modes },
                second: number,
            },
        }
    }

    fn build(&self, pieces: Either<(), Both<Mode, u64>>) -> Option<Replay> {
        Some(match pieces {
            Either::First(()) => Replay::Original,
            Either::Second(Both { front, back }) => Replay::Again {
                mode: front,
                number: back,
            },
        })
    }

    fn split(&self, value: &Replay) -> Either<(), Both<Mode, u64>> {
        match *value {
            Replay::Original => Either::First(()),
            Replay::Again { mode, number } => Either::Second(Both {
                front: mode,
                back: number,
            }),
        }
    }
}
