ghost use Rattle.std.specs.Prelude.{◌≡◌, ◌≤◌, false, length, MatchOption};
ghost use Rattle.issued.specs.Meant.{fields_of, rows_in, issued};
ghost use Rattle.issued.specs.Widths.{total, Counted};

use super::table::rows_of;
use rows::row::Row;

// The widths of all the rows together.
fn sum(rows: &[Row]) -> usize
    requires { length rows.now ≤ 64 }
    ensures { result ≡ total rows.now }
{
    rows.iter().map(|row| usize::from(row.width)).sum()
}

// How many bytes the data of a record with this tag has, if the tag is known.
pub fn data_width(tag: &[u8]) -> Option<usize>
    ensures { MatchOption result (issued.knows tag.now ≡ false) (λ n. n ≡ total (rows_in (fields_of tag.now))) }
{
    Some(sum(rows_of(tag)?))
}

// The tables have 18, 18 and 28 rows, which are 89, 89 and 207 bytes wide: a theorem, and nothing to compute.
pub fn rows_are_published() -> u8
    ensures { Counted }
{
    0
}
