ghost use Rattle.std.specs.Prelude.{◌≡◌, Some, None, MatchOption};
ghost use Rattle.kind.specs.Compounds.{names_composed};
ghost use Rattle.codes.specs.declared.mission.Mission.{Mission};
ghost use Rattle.codes.specs.Missions.{Parts, in_parts, made, parts, mission, names, parts_laws};

use crate::mission::{Mission, Missions};
use crate::project::{Project, Projects};
use kind::compound::{Built, Compound};
use kinds::layers::{Both, Either, OrElse, Then};
use kinds::number::Number;
use kinds::word::Word;

impl<'a> Compound<'a> for Missions {
    type Parts = OrElse<Then<Built<'a, Projects>, Number>, Word<'a>>;

    type Value = Mission;

    ghost Val = { Mission };

    ghost view = { λ v. v };

    ghost Pieces = { Parts };

    ghost seen = { λ p. p };

    ghost built = { λ p. Some (made p) };

    ghost pieces_of = { parts };

    ghost wide = { λ _. 4 };

    ghost in_pieces = { λ _. in_parts };

    ghost reads = { λ _. mission };

    ghost composed = { λ _. names_composed names parts_laws };

    fn parts(&self) -> OrElse<Then<Built<'a, Projects>, Number>, Word<'a>> {
        let number = Number {
            width: 2,
            low: 0,
            high: 99,
        };
        OrElse {
            first: Then {
                first: Built::of(Projects),
                second: number,
            },
            second: Word { bytes: b"UNKN" },
        }
    }

    fn build(&self, pieces: Either<Both<Project, u64>, ()>) -> Option<Mission>
        ensures { MatchOption result (Some (made pieces) ≡ None) (λ v. Some (made pieces) ≡ Some v) }
    {
        Some(match pieces {
            Either::First(Both { front, back }) => Mission::Numbered {
                project: front,
                number: back,
            },
            Either::Second(()) => Mission::Unknown,
        })
    }

    fn split(&self, value: &Mission) -> Either<Both<Project, u64>, ()>
        ensures { result ≡ parts value.now }
    {
        match *value {
            Mission::Numbered { project, number } => Either::First(Both {
                front: project,
                back: number,
            }),
            Mission::Unknown => Either::Second(()),
        }
    }
}
