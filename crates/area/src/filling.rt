ghost use Rattle.std.specs.Prelude.{◌≡◌, ℕ, ◌+◌, ◌≤◌, List, ◌++◌, length, take, drop, slice_set};
ghost use Rattle.model.specs.Records.{Record, TableField, TableRow, AllWhole, written};
ghost use Rattle.area.specs.Finding.{Holds, names};
ghost use Rattle.area.specs.Listing.{entries_of, field_total, Tiling, FilledAll};
ghost use Rattle.walk.specs.Heads.{Tells};

use crate::answer::Entry;
use crate::fields::Fields;
use crate::finding::count_fields;
use crate::records::{RecordBytes, Records, Spot};
use book::Book;

// Writes the entry of a field, if there is such a place.
fn put_entry(entries: &mut [Entry], at: usize, entry: Entry)
    ensures { entries.new ≡ slice_set entries.old at entry }
{
    if at < entries.len() {
        entries[at] = entry;
    }
}

// Fills entries from a place on with the fields of a record. Answers how many they are.
pub fn fill_record<'a, B: Book<'a>>(
    book: &B,
    spot: &Spot<'_>,
    entries: &mut [Entry],
    from: usize,
) -> usize
    requires { from ≤ spot.now.place }
    ensures bound { result ≤ 1 + length spot.now.head.data.now }
    ensures fills { (ss : List (List ℕ)) (fs : List (TableField B.Book.Val)) → Holds (B.Book.means book.now) spot.now.head.tag spot.now.head.data.now ss fs → from + length ss ≤ length entries.old → (result ≡ length ss) × (entries.new ≡ take from entries.old ++ (entries_of spot.now.number 0 (spot.now.place + 11) (names fs) ss ++ drop (from + length ss) entries.old)) }
{
    let base = spot.place + 11;
    let mut count = 0;
    for part in Fields::new(book, spot.head) {
        let entry = Entry {
            record: spot.number,
            field: part.number,
            name: part.name,
            place: base + part.start,
            width: part.width,
        };
        put_entry(entries, from + part.number, entry);
        count += 1;
    }
    count
}

// How many fields the records have.
pub fn count_all<'a, B: Book<'a>>(book: &B, bytes: RecordBytes<'_>) -> usize
    ensures { (l : List Record) (t : List (TableRow B.Book.Val)) → AllWhole (B.Book.means book.now) l t → bytes.entry.all.now ≡ written l → result ≡ field_total l }
{
    let mut total = 0usize;
    for spot in Records::new(bytes) {
        total = total.saturating_add(count_fields(book, &spot.head));
    }
    total
}

// Whether the entries lie one behind another from start to end: each begins where the widths before it sum up to.
pub fn tiles(entries: &[Entry], start: usize, end: usize) -> bool
    ensures { Tells result (Tiling entries.now start end) }
{
    if end < start {
        return false;
    }
    // By an index over the caller's entries, whose widths it sums up.
    let mut at = start;
    for i in 0..entries.len() {
        let e = entries[i];
        if e.place != at {
            return false;
        }
        if end - at < e.width {
            return false;
        }
        at += e.width;
    }
    at == end
}

// Whether k entries from a place on lie one behind another from start to end.
fn tiled(entries: &[Entry], from: usize, k: usize, start: usize, end: usize) -> bool
    ensures { Tells result ((from + k ≤ length entries.now) × Tiling (take k (drop from entries.now)) start end) }
{
    from <= entries.len()
        && k <= entries.len() - from
        && tiles(&entries[from..from + k], start, end)
}

// Fills the entries with the fields of all records, and answers how many they are. The entries of each record must tile its data.
pub fn fill_all<'a, B: Book<'a>>(book: &B, bytes: RecordBytes<'_>, entries: &mut [Entry]) -> usize
    ensures { (l : List Record) (t : List (TableRow B.Book.Val)) → AllWhole (B.Book.means book.now) l t → bytes.entry.all.now ≡ written l → field_total l ≤ length entries.old → FilledAll entries.old entries.new l t result }
{
    let mut filled = 0;
    for spot in Records::new(bytes) {
        let k = fill_record(book, &spot, entries, filled);
        let base = spot.place + 11;
        if !tiled(entries, filled, k, base, base + spot.head.data.len()) {
            return filled;
        }
        filled += k;
    }
    filled
}
