#![tactic(auto)]

// The listing of an area: a line for each record and each field, and an end line, or the one line of a refusal.
ghost use Rattle.std.specs.Prelude.{◌≡◌, ◌≤◌, List, length, IfOk, string_bytes};
ghost use Rattle.lines.specs.Lines.{refusal_line};
ghost use Rattle.std.specs.List.{AllByRecursion};
ghost use Rattle.model.specs.Records.{Record};
ghost use Rattle.report.specs.Entries.{Laid, Placed, Opens, head_line, entry_lines};
ghost use Rattle.report.specs.Halts.{Tabled, Enlisted, Printed, Grown};
ghost use Rattle.report.specs.Listings.{Listing, ended};

mod halt;

use area::answer::Entry;
use area::reading::{count, list, open};
use book::Book;
use halt::Halt;
use lines::{add_line, end_line, field_line, record_line, refusal_line};
use model::area::Area;
use refusal::fault::{Cause, Fault};
use std::alloc::{AllocError, Global};
use walk::header::read_header;

// How many bytes a listing takes in.
pub const LIMIT: usize = 65_536;

// The listing of these bytes under a book.
pub fn listed<'a, B: Book<'a>>(heap: Global, book: &B, bytes: &[u8]) -> Result<String, AllocError>
    ensures { IfOk result (λ s. Listing (B.Book.means book.now) bytes.now (string_bytes s)) }
{
    // Each outcome has an arm of its own: a refusal is a listing too.
    match table(heap, book, bytes) {
        Ok(text) => Ok(text),
        Err(Halt::Refused(fault)) => refused(heap, fault),
        Err(Halt::NoMemory) => Err(AllocError),
    }
}

// The listing of a refusal.
fn refused(heap: Global, fault: Fault) -> Result<String, AllocError>
    ensures { IfOk result (λ s. string_bytes s ≡ ended (refusal_line fault)) }
{
    let mut text = String::new(heap);
    add_line(&mut text, refusal_line(heap, fault)?)?;
    Ok(text)
}

// The listing of an area that reads.
fn table<'a, B: Book<'a>>(heap: Global, book: &B, bytes: &[u8]) -> Result<String, Halt>
    ensures { Tabled (B.Book.means book.now) bytes.now result }
{
    if bytes.len() > LIMIT {
        return Err(Halt::Refused(Fault::new(Cause::TooLong, 0)));
    }
    let area = open(book, bytes, bytes.len())?;
    let records = count(book, bytes, area)?;
    let fields = all_fields(heap, book, bytes, area)?;
    let mut text = Source { heap, bytes }.field_text(fields.as_slice())?;
    add_line(&mut text, end_line(heap, records, bytes.len())?)?;
    Ok(text)
}

// The fields of all records, in order. Each has at least one byte, so that there are no more of them than bytes.
fn all_fields<'a, B: Book<'a>>(
    heap: Global,
    book: &B,
    bytes: &[u8],
    area: Area,
) -> Result<Vec<Entry>, Halt>
    ensures { Enlisted (B.Book.means book.now) bytes.now area result }
{
    let mut fields = vec![in heap; Entry::default(); bytes.len()]?;
    let count = list(book, bytes, area, fields.as_mut_slice())?;
    fields.truncate(count);
    Ok(fields)
}

// The bytes that a listing is of, no more than an area has, and the heap that its lines are made on. That a field is placed
// in them stays a clause: an entry is the caller's plain row, and the bytes are not its own.
#[derive(Clone, Copy)]
struct Source<'b> {
    heap: Global,
    bytes: &'b [u8],
    ghost few: { length bytes.now ≤ 99996 },
}

impl<'b> Source<'b> {
    // The lines of all fields, and of the records that they open.
    fn field_text(&self, fields: &[Entry]) -> Result<String, Halt>
        requires placed { AllByRecursion (Placed self.now.bytes.now) fields.now }
        ensures { Printed self.now.bytes.now fields.now result }
    {
        let mut text = String::new(self.heap);
        for field in fields {
            self.add_field(*field, &mut text)?;
        }
        Ok(text)
    }

    // Puts the line of a field behind a text, and before it that of the record that the field opens.
    fn add_field(&self, field: Entry, text: &mut String) -> Result<(), Halt>
        requires placed { Placed self.now.bytes.now field }
        ensures { (l : List Record) → Laid self.now.bytes.now l → Opens l field → Grown (string_bytes text.old) (entry_lines l field) (string_bytes text.new) result }
    {
        self.add_head(field, text)?;
        let line = field_line(self.heap, field.field, field.place, field.width)?;
        add_line(text, line)?;
        Ok(())
    }

    // Puts the line of the record that a field opens behind a text. The record's header stands right before the field.
    fn add_head(&self, field: Entry, text: &mut String) -> Result<(), Halt>
        requires placed { Placed self.now.bytes.now field }
        ensures { (l : List Record) → Laid self.now.bytes.now l → Opens l field → Grown (string_bytes text.old) (head_line l field field.field) (string_bytes text.new) result }
    {
        if field.field > 0 {
            return Ok(());
        }
        let at = field.place - 11;
        let head = read_header(&self.bytes[at..self.bytes.len()], at)?;
        let line = record_line(self.heap, field.record, at, head.data.len(), head.tag)?;
        add_line(text, line)?;
        Ok(())
    }
}
