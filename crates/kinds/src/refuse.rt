ghost use Rattle.std.specs.Prelude.{◌≡◌};
ghost use Rattle.refusal.specs.Faults.{unread};

use refusal::fault::{Cause, Fault};

// The refusal of every kind: the spelling does not read.
pub fn no_reading() -> Fault
    ensures { result ≡ unread }
{
    Fault::new(Cause::Unread, 0)
}
