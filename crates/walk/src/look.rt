ghost use Rattle.std.specs.Prelude.{◌≡◌, ℕ, ◌+◌, ◌<◌, ◌≤◌, min, length};
ghost use Rattle.model.specs.Ledgers.{reach};
ghost use Rattle.model.specs.Looks.{Drawn, Lookeds};

use crate::fields::read_fields;
use crate::header::good_tag;
use crate::records::count_records;
use book::Book;
use model::area::Area;
use model::seen::{Draft, Read, Seen};
use refusal::fault::{Cause, Fault, at_record};

// How many bytes an area and its draft may take up in a buffer of this length.
pub fn limit(len: usize) -> usize
    ensures { result ≡ min len 99996 }
{
    len.min(99996)
}

// How many bytes an area takes up, an open draft's too, as far as a number can say.
fn taken(area: Area) -> usize
    ensures { result ≡ min (reach area) 18446744073709551615 }
{
    match area.draft {
        None => area.end,
        Some(k) => area.end.saturating_add(11).saturating_add(k),
    }
}

// The draft with k bytes of data that the tail begins with, which lies behind n records at this place.
fn read_draft<'a, B: Book<'a>>(
    book: &B,
    tail: &[u8],
    k: usize,
    at: usize,
    n: usize,
) -> Result<Draft<B::Mark>, Fault>
    requires long { 11 + k ≤ length tail.now }
    requires few { at + (11 + k) ≤ 99996 }
    ensures { Drawn (B.Book.means book.now) (B.Book.stands book.now) tail.now k at n result }
{
    let tag = &tail[..6];
    if !good_tag(tag) {
        return Err(Fault::new(Cause::BadTag, at).in_record(n));
    }
    let read = at_record(read_fields(book, tag, &tail[11..11 + k], true, at + 11), n)?;
    Ok(match read {
        Some(Read { mark, count }) => Draft {
            mark: Some(mark),
            count,
        },
        None => Draft {
            mark: None,
            count: k.min(1),
        },
    })
}

// Looks at the area in the buffer, and at its draft.
pub fn look<'a, B: Book<'a>>(book: &B, buf: &[u8], area: Area) -> Result<Seen<B::Mark>, Fault>
    ensures { Lookeds (B.Book.means book.now) (B.Book.stands book.now) buf.now area result }
{
    if limit(buf.len()) < taken(area) {
        return Err(Fault::new(Cause::TooLong, 0));
    }
    let (records, tail) = buf.split_at(area.end);
    let count = count_records(book, records)?;
    // A match: a closure that gives a book's mark is not supported.
    let draft = match area.draft {
        None => None,
        Some(k) => Some(read_draft(book, tail, k, area.end, count)?),
    };
    Ok(Seen { count, draft })
}
