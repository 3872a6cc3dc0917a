// Codes of what is counted or measured.
#[derive(Clone, Copy, PartialEq, Eq, Debug)]
pub enum FigureCode {
    // Digits, from low to high.
    Number,
    // A sign and five digits, from minus low to plus high.
    Signed,
    // Three digits, a point and three digits; its range leaves out the point.
    Angle,
    // Three digits, a point and two digits, or else 000.00, or else 000000.
    Accuracy,
    // Two digits, a point and four digits, or else four, a point and two, or else 0000000.
    Spacing,
    // Three digits, a point and two digits, or else 999.99.
    Focal,
    // Digits up to high after SAR, and zeros only after any other sensor.
    Total,
}

// Codes of what is written out.
#[derive(Clone, Copy, PartialEq, Eq, Debug)]
pub enum WritingCode {
    // Printable bytes, not all spaces.
    Text,
    // NOT AVAIL. or else text.
    MissionName,
    // NOT AVAILABLE or else text.
    AircraftMission,
    // Capital letters.
    Capitals,
    // Two capital letters, or else 00.
    EndSegment,
    // Spaces only.
    Spaces,
    // An underscore.
    Underscore,
}

// Codes of dates, times and codes.
#[derive(Clone, Copy, PartialEq, Eq, Debug)]
pub enum LabelCode {
    // Year, month, day, hour, minute and second.
    Moment,
    // Year, month, day, hour and minute.
    Minute,
    // Year, month and day, the day 00 too.
    Date,
    // Two capitals or U0 with two digits, or else UNKN.
    MissionNumber,
    // Two digits from low to high, or else a capital letter with a digit.
    Turn,
    // 000, or else G, P or T with two digits.
    Replay,
    // SAR and a space, or else a category and a format.
    Sensor,
    // Four digits, a point and two digits.
    Version,
}

// Codes of places and their units.
#[derive(Clone, Copy, PartialEq, Eq, Debug)]
pub enum SpotCode {
    // Latitude and longitude in degrees and minutes.
    Location,
    // Latitude and longitude in degrees, minutes and seconds, or else in decimal degrees.
    Place,
    // f or m.
    LengthUnit,
    // f, m, r or u.
    SpacingUnit,
}

// Which kind reads a field.
#[derive(Clone, Copy, PartialEq, Eq, Debug)]
pub enum Code {
    Figure(FigureCode),
    Writing(WritingCode),
    Label(LabelCode),
    Spot(SpotCode),
}
