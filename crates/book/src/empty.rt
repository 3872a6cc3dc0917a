ghost use Rattle.std.specs.Prelude.{◌≡◌, ℕ, List};
ghost use Rattle.book.specs.Empty.{nothing, none_stand, empty_laws};
ghost use Rattle.book.specs.Marks.{Started, Asked, Passed, Valued, Spelling};

use crate::Book;
use crate::field::Field;
use refusal::fault::{Cause, Fault};

// The book that knows no tag.
#[derive(Clone, Copy)]
pub struct EmptyBook;

impl<'a> Book<'a> for EmptyBook {
    type Mark = ();

    type Value = ();

    ghost Val = { Unit {0} };

    ghost view = { λ v. v };

    ghost means = { λ _. nothing };

    ghost stands = { λ _. none_stand };

    ghost laws = { λ _. empty_laws };

    fn start(&self, tag: &[u8]) -> Option<()>
        ensures { Started nothing none_stand tag.now result }
    {
        None // whatever the tag
    }

    fn next(&self, mark: &()) -> Option<Field>
        ensures { Asked nothing none_stand mark.now result }
    {
        None
    }

    fn pass(&self, mark: &mut (), spelling: &[u8]) -> Result<(), Fault>
        ensures { Passed nothing none_stand mark.old mark.new spelling.now result }
    {
        Err(Fault::new(Cause::Unread, 0))
    }

    fn value(&self, mark: &(), spelling: &'a [u8]) -> Result<(), Fault>
        ensures { Valued nothing none_stand (λ v. v) mark.now spelling.now result }
    {
        Err(Fault::new(Cause::Unread, 0))
    }

    fn spell(&self, mark: &(), value: &(), out: &mut [u8]) -> Result<(), Fault>
        ensures { Spelling nothing none_stand mark.now value.now out.old out.new result }
    {
        Err(Fault::new(Cause::Unread, 0))
    }
}
