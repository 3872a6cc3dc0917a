#![tactic(auto)]

ghost use Rattle.std.specs.Prelude.{◌≡◌, ℕ, List};
ghost use Rattle.book.specs.Meaning.{Meaning, Laws};
ghost use Rattle.book.specs.Marks.{Started, Asked, Passed, Valued, Spelling};

pub mod empty;
pub mod field;

use field::Field;
use refusal::fault::Fault;

// A book says which tags it knows, and for a known tag and the bytes already passed which field comes next and what it reads.
// How it marks its place in a record is its own: the mark answers as the tag and the passed bytes do.
pub trait Book<'a> {
    type Mark: Drop;

    type Value: Drop;

    // what a field's value is, as a reader of contracts sees it
    ghost Val: { Type 0 };

    ghost view: { Self.Value → Val };

    ghost means: { Self → Meaning Val };

    // the mark stands in a record with this tag behind these bytes
    ghost stands: { Self → List ℕ → List ℕ → Self.Mark → Type 0 };

    ghost laws: { (b : Self) → Laws (means b) };

    // A mark at the start of a record, if the tag is known.
    fn start(&self, tag: &[u8]) -> Option<Self::Mark>
        ensures { Started (means self.now) (stands self.now) tag.now result };

    // The field at the mark, or none where the record is done.
    fn next(&self, mark: &Self::Mark) -> Option<Field>
        ensures { Asked (means self.now) (stands self.now) mark.now result };

    // Moves the mark past a spelling that reads; any other gets refusal 5 and moves nothing.
    fn pass(&self, mark: &mut Self::Mark, spelling: &[u8]) -> Result<(), Fault>
        ensures { Passed (means self.now) (stands self.now) mark.old mark.new spelling.now result };

    // The value that a spelling reads as at the mark.
    fn value(&self, mark: &Self::Mark, spelling: &'a [u8]) -> Result<Self::Value, Fault>
        ensures { Valued (means self.now) (stands self.now) view mark.now spelling.now result };

    // Writes the spelling of a value at the mark over all of `out`.
    fn spell(&self, mark: &Self::Mark, value: &Self::Value, out: &mut [u8]) -> Result<(), Fault>
        ensures { Spelling (means self.now) (stands self.now) mark.now (view value.now) out.old out.new result };
}
