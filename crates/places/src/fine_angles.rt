ghost use Rattle.std.specs.Prelude.{◌≡◌, Some, None, MatchOption};
ghost use Rattle.kind.specs.Compounds.{names_composed};
ghost use Rattle.kinds.specs.Layers.{seq_wide};
ghost use Rattle.places.specs.declared.fine.FineAngle.{FineAngle};
ghost use Rattle.places.specs.FineAngles.{Parts, in_parts, made, parts, fine_angle, names, parts_laws};

use crate::fine::{FineAngle, FineAngles};
use crate::location::Sides;
use crate::sides::Side;
use kind::compound::Compound;
use kinds::layers::{Both, Then};
use kinds::listed::Codes;
use kinds::number::{Number, SIXTY};
use kinds::word::Word;
use std::marker::PhantomData;

type Seconds<'a, S> = Then<Number, Then<Word<'a>, Then<Number, Codes<Sides<S>>>>>;

impl<'a, S: Side> Compound<'a> for FineAngles<S> {
    type Parts = Then<Number, Then<Number, Seconds<'a, S>>>;

    type Value = FineAngle<S>;

    ghost Val = { FineAngle S };

    ghost view = { λ v. v };

    ghost Pieces = { Parts S };

    ghost seen = { λ p. p };

    ghost built = { λ p. Some (made p) };

    ghost pieces_of = { parts };

    ghost wide = { λ _. seq_wide S.WIDTH 10 };

    ghost in_pieces = { λ _. in_parts S.WIDTH S.HIGH S.letters S.both };

    ghost reads = { λ _. fine_angle S.WIDTH S.HIGH S.letters S.both };

    ghost composed = { λ _. names_composed (names S.WIDTH S.HIGH S.letters S.both) (parts_laws S.WIDTH S.HIGH S.some S.few S.spelt S.both) };

    fn parts(&self) -> Then<Number, Then<Number, Seconds<'a, S>>> {
        let seconds = Then {
            first: SIXTY,
            second: Then {
                first: Word { bytes: b"." },
                second: Then {
                    first: Number {
                        width: 4,
                        low: 0,
                        high: 9999,
                    },
                    second: Codes {
                        list: Sides { of: PhantomData },
                    },
                },
            },
        };
        Then {
            first: Number {
                width: S::WIDTH,
                low: 0,
                high: S::HIGH,
            },
            second: Then {
                first: SIXTY,
                second: seconds,
            },
        }
    }

    fn build(
        &self,
        pieces: Both<u64, Both<u64, Both<u64, Both<(), Both<u64, S>>>>>,
    ) -> Option<FineAngle<S>>
        ensures { MatchOption result (Some (made pieces) ≡ None) (λ v. Some (made pieces) ≡ Some v) }
    {
        Some(FineAngle {
            degrees: pieces.front,
            minutes: pieces.back.front,
            seconds: pieces.back.back.front,
            fraction: pieces.back.back.back.back.front,
            side: pieces.back.back.back.back.back,
        })
    }

    fn split(&self, value: &FineAngle<S>) -> Both<u64, Both<u64, Both<u64, Both<(), Both<u64, S>>>>>
        ensures { result ≡ parts value.now }
    {
        Both {
            front: value.degrees,
            back: Both {
                front: value.minutes,
                back: Both {
                    front: value.seconds,
                    back: Both {
                        front: (),
                        back: Both {
                            front: value.fraction,
                            back: value.side,
                        },
                    },
                },
            },
        }
    }
}
