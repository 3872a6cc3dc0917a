ghost use Rattle.std.specs.Prelude.{◌≡◌};
ghost use Rattle.report.specs.declared.halt.Halt.TheVariants.{Refused, NoMemory};

use refusal::fault::Fault;
use std::alloc::AllocError;

// Why a listing has no table: a refusal, which is then the listing, or want of memory.
#[derive(Clone, Copy)]
pub enum Halt {
    Refused(Fault),
    NoMemory,
}

impl From<Fault> for Halt {
    ghost from_gives = { λ f h. h ≡ Refused f };

    fn from(fault: Fault) -> Halt {
        Halt::Refused(fault)
    }
}

impl From<AllocError> for Halt {
    ghost from_gives = { λ _ h. h ≡ NoMemory };

    fn from(_error: AllocError) -> Halt {
        Halt::NoMemory
    }
}
