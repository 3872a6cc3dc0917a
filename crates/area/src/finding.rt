ghost use Rattle.std.specs.Prelude.{◌≡◌, ℕ, ◌+◌, ◌≤◌, List, length, IfSome};
ghost use Rattle.model.specs.Records.{Record, TableField, written};
ghost use Rattle.area.specs.Finding.{Sound, Found, Fielded, Holds, names};

use crate::fields::Fields;
use crate::part::Part;
use crate::records::{RecordBytes, Records, Spot};
use book::Book;
use walk::fields::read_fields;
use walk::header::Header;

// Record n of bytes that are records.
pub fn find_record<'b>(bytes: RecordBytes<'b>, n: usize) -> Option<Spot<'b>>
    ensures within { IfSome result (λ x. x.place + (11 + length x.head.data.now) ≤ length bytes.entry.all.now) }
    ensures finds { (l : List Record) → Sound l → bytes.entry.all.now ≡ written l → Found l n result }
{
    Records::new(bytes).nth(n)
}

// How many fields a whole record's data has.
pub fn count_fields<'a, B: Book<'a>>(book: &B, head: &Header<'_>) -> usize
    requires { length head.now.data.now ≤ 99996 }
    ensures { (ss : List (List ℕ)) (fs : List (TableField B.Book.Val)) → Holds (B.Book.means book.now) head.now.tag head.now.data.now ss fs → result ≡ length ss }
{
    match read_fields(book, &head.tag, head.data, false, 0) {
        Ok(Some(read)) => read.count,
        Ok(None) => 1,
        // Not met: a whole record's data reads.
        Err(_) => 0,
    }
}

// Field k of a whole record's data.
pub fn find_field<'a, B: Book<'a>>(book: &B, head: &Header<'_>, k: usize) -> Option<Part>
    ensures within { IfSome result (λ p. p.start + p.width ≤ length head.now.data.now) }
    ensures finds { (ss : List (List ℕ)) (fs : List (TableField B.Book.Val)) → Holds (B.Book.means book.now) head.now.tag head.now.data.now ss fs → Fielded ss (names fs) k result }
{
    Fields::new(book, *head).nth(k)
}
