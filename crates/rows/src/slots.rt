ghost use Rattle.std.specs.Prelude.{◌≡◌};
ghost use Rattle.kind.specs.Kinds.{Told, Checked, Spelled};
ghost use Rattle.rows.specs.Slots.{Seen, seen, slot, slot_laws};

use super::slot::Slot;
use super::value::FieldValue;
use kind::Kind;
use kinds::layers::Blank;
use kinds::refuse::no_reading;
use refusal::fault::Fault;

impl<'a> Kind<'a> for Slot {
    type Value = Option<FieldValue<'a>>;

    ghost Val = { Seen };

    ghost view = { seen };

    ghost wide = { λ k. k.cell.row.width };

    ghost reads = { λ k. slot k.cell.row k.cell.sar };

    ghost laws = { λ k. slot_laws k.cell.row k.cell.sar k.cell.ok };

    fn width(&self) -> usize
        ensures { result ≡ self.now.cell.row.width }
    {
        usize::from(self.cell.row.width)
    }

    #[tactic(auto, unfolding(crate::specs::Slots::slot))]
    fn check(&self, s: &[u8]) -> Result<(), Fault>
        ensures { Checked (slot self.now.cell.row self.now.cell.sar) s.now result }
    {
        if self.cell.row.blank {
            return Blank { below: self.cell }.check(s);
        }
        self.cell.check(s)
    }

    #[tactic(auto, unfolding(crate::specs::Slots::slot))]
    fn read(&self, s: &'a [u8]) -> Result<Option<FieldValue<'a>>, Fault>
        ensures { Told seen (slot self.now.cell.row self.now.cell.sar) s.now result }
    {
        if self.cell.row.blank {
            return Blank { below: self.cell }.read(s);
        }
        self.cell.read(s).map(Some)
    }

    #[tactic(auto, unfolding(crate::specs::Slots::slot))]
    fn spell(&self, value: &Option<FieldValue<'a>>, out: &mut [u8]) -> Result<(), Fault>
        ensures { Spelled (slot self.now.cell.row self.now.cell.sar) (seen value.now) out.old out.new result }
    {
        if self.cell.row.blank {
            return Blank { below: self.cell }.spell(value, out);
        }
        let given = value.as_ref().ok_or(no_reading())?;
        self.cell.spell(given, out)
    }
}
