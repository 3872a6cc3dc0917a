ghost use Rattle.std.specs.Prelude.{◌≡◌, ℕ, ◌+◌, ◌≤◌, List, length};
ghost use Rattle.model.specs.Records.{Record, TableField, written};
ghost use Rattle.area.specs.Finding.{Sound, Holds};
ghost use Rattle.area.specs.Which.{RecordHeld, FieldHeld};

use crate::fields::Fields;
use crate::records::{RecordBytes, Records, Spot};
use crate::search::{Spanned, search};
use book::Book;
use walk::header::Header;

// The record that holds a byte, of bytes that are records.
pub fn holding_record<'b>(bytes: RecordBytes<'b>, byte: usize) -> Option<Spot<'b>>
    ensures { (l : List Record) → Sound l → bytes.entry.all.now ≡ written l → RecordHeld l byte result }
{
    for spot in Records::new(bytes) {
        if search(&[spot], byte).is_some() {
            return Some(spot);
        }
    }
    None
}

// Which field of a whole record's data holds a byte of the data.
pub fn holding_field<'a, B: Book<'a>>(book: &B, head: &Header<'_>, byte: usize) -> Option<usize>
    ensures { (ss : List (List ℕ)) (fs : List (TableField B.Book.Val)) → Holds (B.Book.means book.now) head.now.tag head.now.data.now ss fs → FieldHeld ss byte result }
{
    for part in Fields::new(book, *head) {
        if search(&[part], byte).is_some() {
            return Some(part.number);
        }
    }
    None
}
