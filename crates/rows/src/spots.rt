ghost use Rattle.std.specs.Prelude.{◌≡◌};
ghost use Rattle.kind.specs.Kinds.{Told, Checked, Spelled};
ghost use Rattle.rows.specs.Readings.{Reading};
ghost use Rattle.rows.specs.Readings.Reading.{spot};
ghost use Rattle.rows.specs.Cells.{spot_plain, spot_laws};
ghost use Rattle.rows.specs.Fair.{spot_fair};

use super::code::SpotCode;
use super::sort::{Group, Sort};
use super::value::Spot;
use codes::units::{lengths, spacings};
use kind::Kind;
use kind::compound::Built;
use kinds::refuse::no_reading;
use places::location::Locations;
use places::place::Places;
use refusal::fault::Fault;

impl Group for SpotCode {
    ghost fair = { spot_fair };
}

impl<'a> Kind<'a> for Sort<SpotCode> {
    type Value = Spot;

    ghost Val = { Reading };

    ghost view = { spot };

    ghost wide = { λ k. k.cell.row.width };

    ghost reads = { λ k. spot_plain k.code k.cell.row.width k.cell.row.low k.cell.row.high k.cell.sar };

    ghost laws = { λ k. spot_laws k.code k.cell.row.width k.cell.row.low k.cell.row.high k.cell.sar k.ok };

    fn width(&self) -> usize {
        usize::from(self.cell.row.width)
    }

    fn check(&self, s: &[u8]) -> Result<(), Fault> {
        match self.code {
            SpotCode::Location => Built::<'a, _>::of(Locations).check(s),
            SpotCode::Place => Built::<'a, _>::of(Places).check(s),
            SpotCode::LengthUnit => lengths().check(s),
            SpotCode::SpacingUnit => spacings().check(s),
        }
    }

    fn read(&self, s: &'a [u8]) -> Result<Spot, Fault> {
        match self.code {
            SpotCode::Location => Built::<'a, _>::of(Locations).read(s).map(Spot::Location),
            SpotCode::Place => Built::<'a, _>::of(Places).read(s).map(Spot::Place),
            SpotCode::LengthUnit => lengths().read(s).map(Spot::Unit),
            SpotCode::SpacingUnit => spacings().read(s).map(Spot::Unit),
        }
    }

    fn spell(&self, value: &Spot, out: &mut [u8]) -> Result<(), Fault> {
        match (self.code, value) {
            (SpotCode::Location, Spot::Location(v)) => Built::<'a, _>::of(Locations).spell(v, out),
            (SpotCode::Place, Spot::Place(v)) => Built::<'a, _>::of(Places).spell(v, out),
            (SpotCode::LengthUnit, Spot::Unit(v)) => lengths().spell(v, out),
            (SpotCode::SpacingUnit, Spot::Unit(v)) => spacings().spell(v, out),
            _ => Err(no_reading()),
        }
    }
}
