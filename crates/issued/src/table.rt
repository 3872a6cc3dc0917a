ghost use Rattle.std.specs.Prelude.{◌≡◌, false, MatchOption};
ghost use Rattle.issued.specs.Meant.{row_at, rows_in, field_at, fields_of, next_of, issued};

use super::row_number::RowNumber;
use super::tag::Tag;
use rows::cell::Cell;
use rows::code::Code::{Figure, Label, Spot, Writing};
use rows::code::FigureCode::{Accuracy, Angle, Focal, Number, Signed, Spacing, Total};
use rows::code::LabelCode::{Date, Minute, MissionNumber, Moment, Replay, Sensor, Turn, Version};
use rows::code::SpotCode::{LengthUnit, Location, Place, SpacingUnit};
use rows::code::WritingCode::{
    AircraftMission, Capitals, EndSegment, MissionName, Spaces, Text, Underscore,
};
use rows::row::Row;
use rows::slot::Slot;

// How many rows the table has.
pub const ROWS: usize = 64;

// A row: the field's width, its kind, the lowest and the highest number, and whether all spaces stand for none.
// A macro keeps each on one line; a constant may not call a const fn.
macro_rules! row {
    ($width:expr, $kind:expr, $low:expr, $high:expr, $blank:expr) => {
        Row { width: $width, kind: $kind, low: $low, high: $high, blank: $blank }
    };
}

const TABLE: [Row; ROWS] = [
    // AIMIDB
    row!(14, Label(Moment), 0, 0, false),
    row!(4, Label(MissionNumber), 0, 0, false),
    row!(10, Writing(MissionName), 0, 0, false),
    row!(2, Label(Turn), 0, 9, false),
    row!(3, Figure(Number), 0, 999, false),
    row!(2, Writing(Capitals), 0, 0, false),
    row!(2, Figure(Number), 0, 99, false),
    row!(3, Label(Replay), 0, 0, true),
    row!(1, Writing(Spaces), 0, 0, false),
    row!(3, Figure(Number), 1, 99, false),
    row!(5, Figure(Number), 1, 99999, false),
    row!(2, Writing(EndSegment), 0, 0, false),
    row!(3, Figure(Number), 1, 99, false),
    row!(5, Figure(Number), 1, 99999, false),
    row!(2, Writing(Capitals), 0, 0, true),
    row!(4, Writing(Spaces), 0, 0, false),
    row!(11, Spot(Location), 0, 0, true),
    row!(13, Writing(Spaces), 0, 0, false),
    // STDIDC
    row!(14, Label(Moment), 0, 0, false),
    row!(14, Writing(Text), 0, 0, false),
    row!(2, Label(Turn), 1, 99, false),
    row!(3, Figure(Number), 0, 999, false),
    row!(2, Writing(Capitals), 0, 0, false),
    row!(2, Figure(Number), 0, 99, false),
    row!(3, Writing(Text), 0, 0, false),
    row!(1, Writing(Underscore), 0, 0, true),
    row!(3, Figure(Number), 1, 999, false),
    row!(5, Figure(Number), 1, 99999, false),
    row!(2, Writing(Capitals), 0, 0, false),
    row!(3, Figure(Number), 1, 999, false),
    row!(5, Figure(Number), 1, 99999, false),
    row!(2, Writing(Capitals), 0, 0, true),
    row!(4, Figure(Number), 1, 1866, true),
    row!(11, Spot(Location), 0, 0, false),
    row!(5, Writing(Spaces), 0, 0, false),
    row!(8, Writing(Spaces), 0, 0, false),
    // ACFTB
    row!(20, Writing(AircraftMission), 0, 0, false),
    row!(10, Writing(Text), 0, 0, true),
    row!(12, Label(Minute), 0, 0, true),
    row!(4, Label(Sensor), 0, 0, false),
    row!(6, Writing(Text), 0, 0, false),
    row!(1, Figure(Number), 0, 9, true),
    row!(6, Figure(Number), 0, 999999, false),
    row!(8, Label(Date), 0, 0, false),
    row!(6, Figure(Number), 0, 999999, false),
    row!(5, Figure(Number), 0, 99999, false),
    row!(3, Figure(Number), 1, 999, false),
    row!(25, Spot(Place), 0, 0, true),
    row!(6, Figure(Accuracy), 1, 99999, false),
    row!(6, Figure(Signed), 1000, 30000, true),
    row!(1, Spot(LengthUnit), 0, 0, true),
    row!(25, Spot(Place), 0, 0, true),
    row!(6, Figure(Signed), 1000, 30000, true),
    row!(7, Figure(Angle), 0, 180000, true),
    row!(7, Figure(Spacing), 0, 999999, false),
    row!(1, Spot(SpacingUnit), 0, 0, false),
    row!(7, Figure(Spacing), 0, 999999, false),
    row!(1, Spot(SpacingUnit), 0, 0, false),
    row!(6, Figure(Focal), 1, 89999, false),
    row!(6, Figure(Number), 1, 999999, true),
    row!(7, Label(Version), 0, 0, true),
    row!(8, Label(Date), 0, 0, true),
    row!(4, Figure(Total), 0, 9999, false),
    row!(3, Figure(Total), 0, 999, false),
];

// The rows of a tag, if it is known.
pub fn rows_of(tag: &[u8]) -> Option<&'static [Row]>
    ensures { MatchOption result (issued.knows tag.now ≡ false) (λ rows. rows.now ≡ rows_in (fields_of tag.now)) }
{
    let known = Tag::of(tag)?;
    Some(&TABLE[known.first()..known.end()])
}

impl RowNumber {
    // The row, which is as it was published.
    pub fn row(self) -> Row
        ensures { result ≡ row_at self.i }
    {
        // By a borrow: an index into the constant itself copies the whole table first.
        let table: &'static [Row] = &TABLE;
        table[self.i]
    }

    // The number of its name in its tag.
    pub fn name(self) -> u16
        ensures { result ≡ (field_at self.i).number }
    {
        (self.i - Tag::at(self.i).first()) as u16
    }

    // The row after it, or the end past a tag's last.
    pub fn next(self) -> usize
        ensures { result ≡ next_of self.i }
    {
        let next = self.i + 1;
        if next == Tag::at(self.i).end() {
            ROWS
        } else {
            next
        }
    }

    // The kind of the row.
    pub fn slot(self, sar: bool) -> Slot
        ensures { (result.cell.row ≡ row_at self.i) × (result.cell.sar ≡ sar) }
    {
        Slot {
            cell: Cell {
                row: self.row(),
                sar,
            },
        }
    }
}
