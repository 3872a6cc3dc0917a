ghost use Rattle.std.specs.Prelude.{◌≡◌, ℕ, ◌+◌, ◌<◌, ◌≤◌, length};
ghost use Rattle.model.specs.Looks.{Leds, Listeds};

use crate::fields::read_fields;
use crate::header::read_header;
use book::Book;
use refusal::fault::{Fault, at_record};

// The size of the record that the bytes begin with, which is record n at this place.
// The limit of an area stands with four functions of this crate, each time of another sum, so that no one type would hold it.
fn first_record<'a, B: Book<'a>>(
    book: &B,
    bytes: &[u8],
    at: usize,
    n: usize,
) -> Result<usize, Fault>
    requires some { 0 < length bytes.now }
    requires few { at + length bytes.now ≤ 99996 }
    ensures { Leds (B.Book.means book.now) at n bytes.now result }
{
    let head = at_record(read_header(bytes, at), n)?;
    at_record(read_fields(book, &head.tag, head.data, false, at + 11), n)?;
    Ok(11 + head.data.len())
}

// How many records the bytes are.
pub fn count_records<'a, B: Book<'a>>(book: &B, bytes: &[u8]) -> Result<usize, Fault>
    requires { length bytes.now ≤ 99996 }
    ensures { Listeds (B.Book.means book.now) bytes.now result }
{
    // Each refusal states the place and the number of the record, so both are kept.
    let mut at = 0;
    let mut count = 0;
    while at < bytes.len() {
        at += first_record(book, &bytes[at..], at, count)?;
        count += 1;
    }
    Ok(count)
}
