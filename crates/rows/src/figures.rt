ghost use Rattle.std.specs.Prelude.{◌≡◌, if◌then◌else◌};
ghost use Rattle.kind.specs.Kinds.{Told, Checked, Spelled};
ghost use Rattle.rows.specs.Readings.{Reading};
ghost use Rattle.rows.specs.Readings.Reading.{figure};
ghost use Rattle.rows.specs.Cells.{figure_plain, figure_laws};
ghost use Rattle.rows.specs.Fair.{figure_fair};

use super::code::FigureCode;
use super::sort::{Group, Sort};
use super::value::Figure;
use fields::accuracy::Accuracies;
use fields::focal::FocalLengths;
use fields::spacing::PixelSpacings;
use kind::Kind;
use kind::compound::Built;
use kinds::number::Number;
use kinds::point::Point;
use kinds::refuse::no_reading;
use kinds::sign::Signed;
use refusal::fault::Fault;

// The highest total: the row's after SAR, and 0 after any other sensor.
fn limit(high: u64, sar: bool) -> u64
    ensures { result ≡ (if sar then high else 0) }
{
    if sar { high } else { 0 }
}

// The kinds that a row makes, each said once; a function for each would need a requires that says the code again.
macro_rules! kind_of {
    (Number, $sort:expr) => {
        Number { width: usize::from($sort.cell.row.width), low: $sort.cell.row.low, high: $sort.cell.row.high }
    };
    (Signed, $sort:expr) => {
        Signed { digits: 5, below: $sort.cell.row.low, above: $sort.cell.row.high }
    };
    (Angle, $sort:expr) => {
        Point { whole: 3, places: 3, low: $sort.cell.row.low, high: $sort.cell.row.high }
    };
    (Accuracy, $sort:expr) => {
        Built::of(Accuracies { low: $sort.cell.row.low, high: $sort.cell.row.high })
    };
    (Spacing, $sort:expr) => {
        Built::of(PixelSpacings { low: $sort.cell.row.low, high: $sort.cell.row.high })
    };
    (Focal, $sort:expr) => {
        Built::of(FocalLengths { low: $sort.cell.row.low, high: $sort.cell.row.high })
    };
    (Total, $sort:expr) => {
        Number { width: usize::from($sort.cell.row.width), low: 0, high: limit($sort.cell.row.high, $sort.cell.sar) }
    };
}

impl Group for FigureCode {
    ghost fair = { figure_fair };
}

impl<'a> Kind<'a> for Sort<FigureCode> {
    type Value = Figure;

    ghost Val = { Reading };

    ghost view = { figure };

    ghost wide = { λ k. k.cell.row.width };

    ghost reads = { λ k. figure_plain k.code k.cell.row.width k.cell.row.low k.cell.row.high k.cell.sar };

    ghost laws = { λ k. figure_laws k.code k.cell.row.width k.cell.row.low k.cell.row.high k.cell.sar k.ok };

    fn width(&self) -> usize {
        usize::from(self.cell.row.width)
    }

    fn check(&self, s: &[u8]) -> Result<(), Fault> {
        match self.code {
            FigureCode::Number => kind_of!(Number, self).check(s),
            FigureCode::Signed => kind_of!(Signed, self).check(s),
            FigureCode::Angle => kind_of!(Angle, self).check(s),
            FigureCode::Accuracy => kind_of!(Accuracy, self).check(s),
            FigureCode::Spacing => kind_of!(Spacing, self).check(s),
            FigureCode::Focal => kind_of!(Focal, self).check(s),
            FigureCode::Total => kind_of!(Total, self).check(s),
        }
    }

    fn read(&self, s: &'a [u8]) -> Result<Figure, Fault> {
        match self.code {
            FigureCode::Number => kind_of!(Number, self).read(s).map(Figure::Number),
            FigureCode::Signed => kind_of!(Signed, self).read(s).map(Figure::Signed),
            FigureCode::Angle => kind_of!(Angle, self).read(s).map(Figure::Decimal),
            FigureCode::Accuracy => kind_of!(Accuracy, self).read(s).map(Figure::Accuracy),
            FigureCode::Spacing => kind_of!(Spacing, self).read(s).map(Figure::Spacing),
            FigureCode::Focal => kind_of!(Focal, self).read(s).map(Figure::Focal),
            FigureCode::Total => kind_of!(Total, self).read(s).map(Figure::Number),
        }
    }

    fn spell(&self, value: &Figure, out: &mut [u8]) -> Result<(), Fault> {
        match (self.code, value) {
            (FigureCode::Number, Figure::Number(v)) => kind_of!(Number, self).spell(v, out),
            (FigureCode::Signed, Figure::Signed(v)) => kind_of!(Signed, self).spell(v, out),
            (FigureCode::Angle, Figure::Decimal(v)) => kind_of!(Angle, self).spell(v, out),
            (FigureCode::Accuracy, Figure::Accuracy(v)) => kind_of!(Accuracy, self).spell(v, out),
            (FigureCode::Spacing, Figure::Spacing(v)) => kind_of!(Spacing, self).spell(v, out),
            (FigureCode::Focal, Figure::Focal(v)) => kind_of!(Focal, self).spell(v, out),
            (FigureCode::Total, Figure::Number(v)) => kind_of!(Total, self).spell(v, out),
            _ => Err(no_reading()),
        }
    }
}
