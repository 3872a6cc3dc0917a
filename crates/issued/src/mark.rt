ghost use Rattle.std.specs.Prelude.{◌≡◌, ◌≤◌, MatchOption};
ghost use Rattle.issued.specs.Meant.{Placed};

use super::row_number::RowNumber;
use super::table::ROWS;
use kinds::refuse::no_reading;
use refusal::fault::Fault;

// A place in a record: the row of the table that comes next, 64 where the record is done, and whether SAR was read.
#[derive(Clone, Copy)]
pub struct Mark {
    pub(crate) row: usize,
    pub(crate) sar: bool,
}

impl Mark {
    // The row that comes next, if the record is not done.
    pub(crate) fn next_row(&self) -> Option<RowNumber>
        ensures { MatchOption result (64 ≤ self.now.row) (λ n. n.i ≡ self.now.row) }
    {
        if self.row < ROWS {
            Some(RowNumber { i: self.row })
        } else {
            None
        }
    }

    // The same; nothing reads where the record is done.
    pub(crate) fn here(&self) -> Result<RowNumber, Fault>
        ensures { Placed self.now.row result }
    {
        self.next_row().ok_or(no_reading())
    }
}
