ghost use Rattle.std.specs.Prelude.{◌≡◌, Some, None, MatchOption};
ghost use Rattle.kind.specs.Compounds.{names_composed};
ghost use Rattle.codes.specs.declared.project.Project.{Project};
ghost use Rattle.codes.specs.Projects.{Parts, in_parts, made, parts, project, names, parts_laws};

use crate::letter::Letter;
use crate::project::{Project, Projects};
use kind::compound::Compound;
use kinds::layers::{Both, Either, OrElse, Then};
use kinds::word::Word;

type Pair = Then<Letter, Letter>;

impl<'a> Compound<'a> for Projects {
    type Parts = OrElse<Pair, Word<'a>>;

    type Value = Project;

    ghost Val = { Project };

    ghost view = { λ v. v };

    ghost Pieces = { Parts };

    ghost seen = { λ p. p };

    ghost built = { λ p. Some (made p) };

    ghost pieces_of = { parts };

    ghost wide = { λ _. 2 };

    ghost in_pieces = { λ _. in_parts };

    ghost reads = { λ _. project };

    ghost composed = { λ _. names_composed names parts_laws };

    fn parts(&self) -> OrElse<Pair, Word<'a>> {
        OrElse {
            first: Then {
                first: Letter,
                second: Letter,
            },
            second: Word { bytes: b"U0" },
        }
    }

    fn build(&self, pieces: Either<Both<u8, u8>, ()>) -> Option<Project>
        ensures { MatchOption result (Some (made pieces) ≡ None) (λ v. Some (made pieces) ≡ Some v) }
    {
        Some(match pieces {
            Either::First(Both { front, back }) => Project::Letters {
                first: front,
                second: back,
            },
            Either::Second(()) => Project::Unknown,
        })
    }

    fn split(&self, value: &Project) -> Either<Both<u8, u8>, ()>
        ensures { result ≡ parts value.now }
    {
        match *value {
            Project::Letters { first, second } => Either::First(Both {
                front: first,
                back: second,
            }),
            Project::Unknown => Either::Second(()),
        }
    }
}
