ghost use Rattle.std.specs.Prelude.{◌≡◌};
ghost use Rattle.kind.specs.Kinds.{Told, Checked, Spelled};
ghost use Rattle.rows.specs.Readings.{Reading};
ghost use Rattle.rows.specs.Readings.Reading.{label};
ghost use Rattle.rows.specs.Cells.{label_plain, label_laws};
ghost use Rattle.rows.specs.Fair.{label_fair};

use super::code::LabelCode;
use super::sort::{Group, Sort};
use super::value::Label;
use codes::mission::Missions;
use codes::replay::Replays;
use codes::sensor::Sensors;
use codes::turn::Turns;
use codes::version::Versions;
use fields::stamp::{DateStamps, MinuteStamps, MomentStamps};
use kind::Kind;
use kind::compound::Built;
use kinds::refuse::no_reading;
use refusal::fault::Fault;

// The kinds that a row makes, each said once; a function for each would need a requires that says the code again.
macro_rules! kind_of {
    (Turn, $sort:expr) => {
        Built::<'a, _>::of(Turns { low: $sort.cell.row.low, high: $sort.cell.row.high })
    };
}

impl Group for LabelCode {
    ghost fair = { label_fair };
}

impl<'a> Kind<'a> for Sort<LabelCode> {
    type Value = Label;

    ghost Val = { Reading };

    ghost view = { label };

    ghost wide = { λ k. k.cell.row.width };

    ghost reads = { λ k. label_plain k.code k.cell.row.width k.cell.row.low k.cell.row.high k.cell.sar };

    ghost laws = { λ k. label_laws k.code k.cell.row.width k.cell.row.low k.cell.row.high k.cell.sar k.ok };

    fn width(&self) -> usize {
        usize::from(self.cell.row.width)
    }

    fn check(&self, s: &[u8]) -> Result<(), Fault> {
        match self.code {
            LabelCode::Moment => MomentStamps.check(s),
            LabelCode::Minute => MinuteStamps.check(s),
            LabelCode::Date => DateStamps.check(s),
            LabelCode::MissionNumber => Built::<'a, _>::of(Missions).check(s),
            LabelCode::Turn => kind_of!(Turn, self).check(s),
            LabelCode::Replay => Built::<'a, _>::of(Replays).check(s),
            LabelCode::Sensor => Built::<'a, _>::of(Sensors).check(s),
            LabelCode::Version => Built::<'a, _>::of(Versions).check(s),
        }
    }

    fn read(&self, s: &'a [u8]) -> Result<Label, Fault> {
        match self.code {
            LabelCode::Moment => MomentStamps.read(s).map(Label::Moment),
            LabelCode::Minute => MinuteStamps.read(s).map(Label::Minute),
            LabelCode::Date => DateStamps.read(s).map(Label::Date),
            LabelCode::MissionNumber => Built::<'a, _>::of(Missions).read(s).map(Label::Mission),
            LabelCode::Turn => kind_of!(Turn, self).read(s).map(Label::Turn),
            LabelCode::Replay => Built::<'a, _>::of(Replays).read(s).map(Label::Replay),
            LabelCode::Sensor => Built::<'a, _>::of(Sensors).read(s).map(Label::Sensor),
            LabelCode::Version => Built::<'a, _>::of(Versions).read(s).map(Label::Version),
        }
    }

    fn spell(&self, value: &Label, out: &mut [u8]) -> Result<(), Fault> {
        match (self.code, value) {
            (LabelCode::Moment, Label::Moment(v)) => MomentStamps.spell(v, out),
            (LabelCode::Minute, Label::Minute(v)) => MinuteStamps.spell(v, out),
            (LabelCode::Date, Label::Date(v)) => DateStamps.spell(v, out),
            (LabelCode::MissionNumber, Label::Mission(v)) => Built::<'a, _>::of(Missions).spell(
                v, out,
            ),
            (LabelCode::Turn, Label::Turn(v)) => kind_of!(Turn, self).spell(v, out),
            (LabelCode::Replay, Label::Replay(v)) => Built::<'a, _>::of(Replays).spell(v, out),
            (LabelCode::Sensor, Label::Sensor(v)) => Built::<'a, _>::of(Sensors).spell(v, out),
            (LabelCode::Version, Label::Version(v)) => Built::<'a, _>::of(Versions).spell(v, out),
            _ => Err(no_reading()),
        }
    }
}
