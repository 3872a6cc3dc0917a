ghost use Rattle.std.specs.Prelude.{◌≡◌};
ghost use Rattle.kind.specs.Kinds.{Told, Checked, Spelled};
ghost use Rattle.rows.specs.Readings.{Reading, seen_writing};
ghost use Rattle.rows.specs.Readings.Reading.{writing};
ghost use Rattle.rows.specs.Cells.{writing_plain, writing_laws};
ghost use Rattle.rows.specs.Fair.{writing_fair};

use super::code::WritingCode;
use super::sort::{Group, Sort};
use super::value::Writing;
use fields::name::Names;
use fields::segment::EndSegments;
use kind::Kind;
use kind::compound::Built;
use kinds::capital::Capitals;
use kinds::refuse::no_reading;
use kinds::space::Spaces;
use kinds::text::Text;
use kinds::word::Word;
use refusal::fault::Fault;

const MISSION_NAME: Names = Names {
    none: Word {
        bytes: b"NOT AVAIL.",
    },
};

const AIRCRAFT_MISSION: Names = Names {
    none: Word {
        bytes: b"NOT AVAILABLE       ",
    },
};

const UNDERSCORE: Word<'static> = Word { bytes: b"_" };

// The kinds that a row makes, each said once; a function for each would need a requires that says the code again.
macro_rules! kind_of {
    (Text, $sort:expr) => {
        Text { width: usize::from($sort.cell.row.width) }
    };
    (Capitals, $sort:expr) => {
        Capitals { width: usize::from($sort.cell.row.width) }
    };
    (Spaces, $sort:expr) => {
        Spaces { width: usize::from($sort.cell.row.width) }
    };
}

impl Group for WritingCode {
    ghost fair = { writing_fair };
}

impl<'a> Kind<'a> for Sort<WritingCode> {
    type Value = Writing<'a>;

    ghost Val = { Reading };

    ghost view = { λ v. writing (seen_writing v) };

    ghost wide = { λ k. k.cell.row.width };

    ghost reads = { λ k. writing_plain k.code k.cell.row.width k.cell.row.low k.cell.row.high k.cell.sar };

    ghost laws = { λ k. writing_laws k.code k.cell.row.width k.cell.row.low k.cell.row.high k.cell.sar k.ok };

    fn width(&self) -> usize
        ensures { result ≡ self.now.cell.row.width }
    {
        usize::from(self.cell.row.width)
    }

    fn check(&self, s: &[u8]) -> Result<(), Fault>
        ensures { Checked (writing_plain self.now.code self.now.cell.row.width self.now.cell.row.low self.now.cell.row.high self.now.cell.sar) s.now result }
    {
        match self.code {
            WritingCode::Text => kind_of!(Text, self).check(s),
            WritingCode::MissionName => Built::<'a, _>::of(MISSION_NAME).check(s),
            WritingCode::AircraftMission => Built::<'a, _>::of(AIRCRAFT_MISSION).check(s),
            WritingCode::Capitals => kind_of!(Capitals, self).check(s),
            WritingCode::EndSegment => Built::<'a, _>::of(EndSegments).check(s),
            WritingCode::Spaces => kind_of!(Spaces, self).check(s),
            WritingCode::Underscore => UNDERSCORE.check(s),
        }
    }

    fn read(&self, s: &'a [u8]) -> Result<Writing<'a>, Fault>
        ensures { Told (λ v. writing (seen_writing v)) (writing_plain self.now.code self.now.cell.row.width self.now.cell.row.low self.now.cell.row.high self.now.cell.sar) s.now result }
    {
        match self.code {
            WritingCode::Text => kind_of!(Text, self).read(s).map(Writing::Text),
            WritingCode::MissionName => Built::<'a, _>::of(MISSION_NAME).read(s).map(Writing::Name),
            WritingCode::AircraftMission => Built::<'a, _>::of(AIRCRAFT_MISSION)
                .read(s)
                .map(Writing::Name),
            WritingCode::Capitals => kind_of!(Capitals, self).read(s).map(Writing::Letters),
            WritingCode::EndSegment => Built::<'a, _>::of(EndSegments)
                .read(s)
                .map(Writing::EndSegment),
            WritingCode::Spaces => kind_of!(Spaces, self).read(s).map(|()| Writing::Spaces),
            WritingCode::Underscore => UNDERSCORE.read(s).map(|()| Writing::Underscore),
        }
    }

    fn spell(&self, value: &Writing<'a>, out: &mut [u8]) -> Result<(), Fault>
        ensures { Spelled (writing_plain self.now.code self.now.cell.row.width self.now.cell.row.low self.now.cell.row.high self.now.cell.sar) (writing (seen_writing value.now)) out.old out.new result }
    {
        match (self.code, value) {
            (WritingCode::Text, Writing::Text(v)) => kind_of!(Text, self).spell(v, out),
            (WritingCode::MissionName, Writing::Name(v)) => Built::<'a, _>::of(MISSION_NAME).spell(
                v, out,
            ),
            (WritingCode::AircraftMission, Writing::Name(v)) => Built::<'a, _>::of(
                AIRCRAFT_MISSION,
            ).spell(v, out),
            (WritingCode::Capitals, Writing::Letters(v)) => kind_of!(Capitals, self).spell(v, out),
            (WritingCode::EndSegment, Writing::EndSegment(v)) => Built::<'a, _>::of(
                EndSegments,
            ).spell(v, out),
            (WritingCode::Spaces, Writing::Spaces) => kind_of!(Spaces, self).spell(&(), out),
            (WritingCode::Underscore, Writing::Underscore) => UNDERSCORE.spell(&(), out),
            _ => Err(no_reading()),
        }
    }
}
