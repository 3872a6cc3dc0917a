ghost use Rattle.std.specs.Prelude.{◌≡◌};
ghost use Rattle.book.specs.Marks.{Started, Asked, Passed, Valued, Spelling};
ghost use Rattle.rows.specs.Sensors.{flag};
ghost use Rattle.rows.specs.Slots.{Seen, seen};
ghost use Rattle.issued.specs.Meant.{issued, Stands};
ghost use Rattle.issued.specs.Lawful.{issued_laws};

use super::mark::Mark;
use super::tag::Tag;
use book::Book;
use book::field::Field;
use kind::Kind;
use kinds::words::same;
use refusal::fault::Fault;
use rows::code::{Code, LabelCode};
use rows::value::FieldValue;

// Whether SAR was read, after one more field.
fn sar_after(kind: Code, sar: bool, spelling: &[u8]) -> bool
    ensures { result ≡ flag kind sar spelling.now }
{
    match kind {
        Code::Label(LabelCode::Sensor) => same(spelling, b"SAR "),
        _ => sar,
    }
}

// The book of the tags AIMIDB, STDIDC and ACFTB.
#[derive(Clone, Copy)]
pub struct IssuedBook;

impl<'a> Book<'a> for IssuedBook {
    type Mark = Mark;

    type Value = Option<FieldValue<'a>>;

    ghost Val = { Seen };

    ghost view = { seen };

    ghost means = { λ _. issued };

    ghost stands = { λ _. Stands };

    ghost laws = { λ _. issued_laws };

    fn start(&self, tag: &[u8]) -> Option<Mark>
        ensures { Started issued Stands tag.now result }
    {
        let known = Tag::of(tag)?;
        Some(Mark {
            row: known.first(),
            sar: false,
        })
    }

    fn next(&self, mark: &Mark) -> Option<Field>
        ensures { Asked issued Stands mark.now result }
    {
        let n = mark.next_row()?;
        Some(Field {
            name: n.name(),
            width: n.row().width,
        })
    }

    fn pass(&self, mark: &mut Mark, spelling: &[u8]) -> Result<(), Fault>
        ensures { Passed issued Stands mark.old mark.new spelling.now result }
    {
        let n = mark.here()?;
        n.slot(mark.sar).check(spelling)?;
        let sar = sar_after(n.row().kind, mark.sar, spelling);
        let row = n.next();
        *mark = Mark { row, sar };
        Ok(())
    }

    fn value(&self, mark: &Mark, spelling: &'a [u8]) -> Result<Option<FieldValue<'a>>, Fault>
        ensures { Valued issued Stands seen mark.now spelling.now result }
    {
        mark.here()?.slot(mark.sar).read(spelling)
    }

    fn spell(
        &self,
        mark: &Mark,
        value: &Option<FieldValue<'a>>,
        out: &mut [u8],
    ) -> Result<(), Fault>
        ensures { Spelling issued Stands mark.now (seen value.now) out.old out.new result }
    {
        mark.here()?.slot(mark.sar).spell(value, out)
    }
}
