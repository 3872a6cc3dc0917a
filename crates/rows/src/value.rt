use codes::mission::Mission;
use codes::replay::Replay;
use codes::sensor::Sensor;
use codes::turn::Turn;
use codes::unit::Unit;
use codes::version::Version;
use fields::accuracy::Accuracy;
use fields::focal::FocalLength;
use fields::name::Name;
use fields::segment::EndSegment;
use fields::spacing::PixelSpacing;
use fields::stamp::{DateStamp, MinuteStamp, MomentStamp};
use kinds::capital::Letters;
use kinds::point::Decimal;
use kinds::text::TextBytes;
use places::location::Location;
use places::place::Place;

// What is counted or measured.
#[derive(Clone, Copy, PartialEq, Eq, Debug)]
pub enum Figure {
    Number(u64),
    Signed(i64),
    Decimal(Decimal),
    Accuracy(Accuracy),
    Spacing(PixelSpacing),
    Focal(FocalLength),
}

// What is written out; its bytes are part of what was read.
#[derive(Clone, Copy, PartialEq, Eq, Debug)]
pub enum Writing<'a> {
    Text(TextBytes<'a>),
    Name(Name<'a>),
    Letters(Letters<'a>),
    EndSegment(EndSegment<'a>),
    Spaces,
    Underscore,
}

// A date, a time or a code.
#[derive(Clone, Copy, PartialEq, Eq, Debug)]
pub enum Label {
    Moment(MomentStamp),
    Minute(MinuteStamp),
    Date(DateStamp),
    Mission(Mission),
    Turn(Turn),
    Replay(Replay),
    Sensor(Sensor),
    Version(Version),
}

// What is said of places and their units.
#[derive(Clone, Copy, PartialEq, Eq, Debug)]
pub enum Spot {
    Location(Location),
    Place(Place),
    Unit(Unit),
}

// What a field that is not absent reads as.
#[derive(Clone, Copy, PartialEq, Eq, Debug)]
pub enum FieldValue<'a> {
    Figure(Figure),
    Writing(Writing<'a>),
    Label(Label),
    Spot(Spot),
}
