ghost use Rattle.std.specs.Prelude.{◌≡◌, length};
ghost use Rattle.area.specs.Which.{which_rules, WhichTold};
ghost use Rattle.area.specs.Listing.{list_rules, Filled, Kept};
ghost use Rattle.area.specs.Finding.{Lends};
ghost use Rattle.area.specs.Reading.{Answers, never_refused, opened, Opened, Counted, record_rules, RecordTold, field_rules, FieldTold};

use crate::answer::{Entry, FieldInfo, RecordInfo};
use crate::filling::{count_all, fill_all};
use crate::finding::{count_fields, find_field, find_record};
use crate::holding::{holding_field, holding_record};
use crate::records::RecordBytes;
use book::Book;
use model::area::Area;
use refusal::fault::{Cause, Fault};
use walk::look::look;

// The calls take the buffer beside the area's value, since the buffer is the caller's and is lent to each of them.

// Checks the area that takes up the first len bytes of the buffer.
pub fn open<'a, B: Book<'a>>(book: &B, buf: &[u8], len: usize) -> Result<Area, Fault>
    ensures { Answers (B.Book.means book.now) buf.now (opened len) never_refused (Opened len) result }
{
    let whole = Area {
        end: len,
        draft: None,
    };
    look(book, buf, whole)?;
    Ok(whole)
}

// How many finished records the area has.
pub fn count<'a, B: Book<'a>>(book: &B, buf: &[u8], area: Area) -> Result<usize, Fault>
    ensures { Answers (B.Book.means book.now) buf.now area never_refused Counted result }
{
    let seen = look(book, buf, area)?;
    Ok(seen.count)
}

// Looks at the area and lends the bytes of its finished records.
fn finished<'a, 'b, B: Book<'a>>(
    book: &B,
    buf: &'b [u8],
    area: Area,
) -> Result<RecordBytes<'b>, Fault>
    ensures { Lends (B.Book.means book.now) buf.now area result }
{
    look(book, buf, area)?;
    let end = area.end;
    Ok(RecordBytes { all: &buf[0..end] })
}

// Record n: its place, data length, tag and field count.
pub fn record<'a, B: Book<'a>>(
    book: &B,
    buf: &[u8],
    area: Area,
    n: usize,
) -> Result<RecordInfo, Fault>
    ensures { Answers (B.Book.means book.now) buf.now area (record_rules n) (RecordTold n) result }
{
    let bytes = finished(book, buf, area)?;
    let spot = find_record(bytes, n).ok_or(Fault::new(Cause::NoSuch, 0))?;
    let head = spot.head;
    let fields = count_fields(book, &head);
    Ok(RecordInfo {
        place: spot.place,
        length: head.data.len(),
        tag: head.tag,
        fields,
    })
}

// Field k of record n: its place, its name number and its bytes, which are a part of the buffer.
pub fn field<'a, 'b, B: Book<'a>>(
    book: &B,
    buf: &'b [u8],
    area: Area,
    n: usize,
    k: usize,
) -> Result<FieldInfo<'b>, Fault>
    ensures { Answers (B.Book.means book.now) buf.now area (field_rules n k) (FieldTold buf.now n k) result }
{
    let bytes = finished(book, buf, area)?;
    let spot = find_record(bytes, n).ok_or(Fault::new(Cause::NoSuch, 0))?;
    let head = spot.head;
    let part = find_field(book, &head, k).ok_or(Fault::new(Cause::NoSuch, 0))?;
    let start = part.start;
    let width = part.width;
    Ok(FieldInfo {
        place: spot.place + 11 + start,
        name: part.name,
        bytes: &head.data[start..start + width],
    })
}

// Fills the caller's entries, one for each field, and answers how many they are.
pub fn list<'a, B: Book<'a>>(
    book: &B,
    buf: &[u8],
    area: Area,
    entries: &mut [Entry],
) -> Result<usize, Fault>
    ensures answers { Answers (B.Book.means book.now) buf.now area (list_rules (length entries.old)) (Filled entries.old entries.new) result }
    ensures kept { Kept entries.old entries.new result }
{
    let bytes = finished(book, buf, area)?;
    if entries.len() < count_all(book, bytes) {
        return Err(Fault::new(Cause::FewEntries, 0));
    }
    Ok(fill_all(book, bytes, entries))
}

// Which record and field hold a byte of the area; the flag says that it lies in the record's header.
pub fn which<'a, B: Book<'a>>(
    book: &B,
    buf: &[u8],
    area: Area,
    byte: usize,
) -> Result<(usize, usize, bool), Fault>
    ensures { Answers (B.Book.means book.now) buf.now area (which_rules byte) (WhichTold byte) result }
{
    let bytes = finished(book, buf, area)?;
    let spot = holding_record(bytes, byte).ok_or(Fault::new(Cause::NoSuch, 0))?;
    let n = spot.number;
    let into = byte - spot.place;
    if into < 11 {
        return Ok((n, 0, true));
    }
    let k = holding_field(book, &spot.head, into - 11).ok_or(Fault::new(Cause::NoSuch, 0))?;
    Ok((n, k, false))
}
