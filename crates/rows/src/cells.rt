ghost use Rattle.std.specs.Prelude.{◌≡◌};
ghost use Rattle.kind.specs.Kinds.{Told, Checked, Spelled};
ghost use Rattle.rows.specs.Readings.{Reading, reading};
ghost use Rattle.rows.specs.Cells.{plain_laws};
ghost use Rattle.rows.specs.Slots.{kind_of};

use super::cell::Cell;
use super::code::Code;
use super::sort::Sort;
use super::value::FieldValue;
use kind::Kind;
use kinds::refuse::no_reading;
use refusal::fault::Fault;

// The clauses of the trait are said again, since the check cannot give them to methods whose types name a lifetime.
impl<'a> Kind<'a> for Cell {
    type Value = FieldValue<'a>;

    ghost Val = { Reading };

    ghost view = { reading };

    ghost wide = { λ k. k.row.width };

    ghost reads = { λ k. kind_of k.row k.sar };

    ghost laws = { λ k. plain_laws k.row.kind k.row.width k.row.low k.row.high k.sar k.ok };

    fn width(&self) -> usize
        ensures { result ≡ self.now.row.width }
    {
        usize::from(self.row.width)
    }

    fn check(&self, s: &[u8]) -> Result<(), Fault>
        ensures { Checked (kind_of self.now.row self.now.sar) s.now result }
    {
        let cell = *self;
        match self.row.kind {
            Code::Figure(code) => Sort { code, cell }.check(s),
            Code::Writing(code) => Sort { code, cell }.check(s),
            Code::Label(code) => Sort { code, cell }.check(s),
            Code::Spot(code) => Sort { code, cell }.check(s),
        }
    }

    fn read(&self, s: &'a [u8]) -> Result<FieldValue<'a>, Fault>
        ensures { Told reading (kind_of self.now.row self.now.sar) s.now result }
    {
        let cell = *self;
        // No map with a constructor: its result would name a lifetime that the check finds in no argument.
        match self.row.kind {
            Code::Figure(code) => Ok(FieldValue::Figure(Sort { code, cell }.read(s)?)),
            Code::Writing(code) => Ok(FieldValue::Writing(Sort { code, cell }.read(s)?)),
            Code::Label(code) => Ok(FieldValue::Label(Sort { code, cell }.read(s)?)),
            Code::Spot(code) => Ok(FieldValue::Spot(Sort { code, cell }.read(s)?)),
        }
    }

    fn spell(&self, value: &FieldValue<'a>, out: &mut [u8]) -> Result<(), Fault>
        ensures { Spelled (kind_of self.now.row self.now.sar) (reading value.now) out.old out.new result }
    {
        let cell = *self;
        match (self.row.kind, value) {
            (Code::Figure(code), FieldValue::Figure(v)) => Sort { code, cell }.spell(v, out),
            (Code::Writing(code), FieldValue::Writing(v)) => Sort { code, cell }.spell(v, out),
            (Code::Label(code), FieldValue::Label(v)) => Sort { code, cell }.spell(v, out),
            (Code::Spot(code), FieldValue::Spot(v)) => Sort { code, cell }.spell(v, out),
            _ => Err(no_reading()),
        }
    }
}
