ghost use Rattle.std.specs.Prelude.{Some};
ghost use Rattle.kind.specs.Compounds.{names_composed};
ghost use Rattle.codes.specs.declared.version.Version.{Version};
ghost use Rattle.codes.specs.Versions.{Parts, in_parts, made, parts, version, names, parts_laws};

use crate::version::{Version, Versions};
use kind::compound::Compound;
use kinds::layers::{Both, Then};
use kinds::number::Number;
use kinds::word::Word;

impl<'a> Compound<'a> for Versions {
    type Parts = Then<Number, Then<Word<'static>, Number>>;

    type Value = Version;

    ghost Val = { Version };

    ghost view = { λ v. v };

    ghost Pieces = { Parts };

    ghost seen = { λ p. p };

    ghost built = { λ p. Some (made p) };

    ghost pieces_of = { parts };

    ghost wide = { λ _. 7 };

    ghost in_pieces = { λ _. in_parts };

    ghost reads = { λ _. version };

    ghost composed = { λ _. names_composed names parts_laws };

    fn parts(&self) -> Then<Number, Then<Word<'static>, Number>> {
        let release = Number {
            width: 4,
            low: 0,
            high: 9999,
        };
        let change = Number {
            width: 2,
            low: 0,
            high: 99,
        };
        Then {
            first: release,
            second: Then {
                first: Word { bytes: b"." },
                second: change,
            },
        }
    }

    fn build(&self, pieces: Both<u64, Both<(), u64>>) -> Option<Version> {
        Some(Version {
            release: pieces.front,
            change: pieces.back.back,
        })
    }

    fn split(&self, value: &Version) -> Both<u64, Both<(), u64>> {
        Both {
            front: value.release,
            back: Both {
                front: (),
                back: value.change,
            },
        }
    }
}
