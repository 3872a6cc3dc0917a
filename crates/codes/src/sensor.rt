// What made an image.
// No Option: radar is a sensor too.
#[derive(Clone, Copy, PartialEq, Eq, Debug)]
pub enum Sensor {
    // SAR and a space
    Radar,
    Optical { category: Category, format: Format },
}

// What a sensor sees, and from how high.
#[derive(Clone, Copy, PartialEq, Eq, Debug)]
pub enum Category {
    HighInfrared,
    MediumInfrared,
    LowInfrared,
    HighMultispectral,
    MediumMultispectral,
    LowMultispectral,
    HighVisible,
    MediumVisible,
    LowVisible,
    VideoFrame,
}

// How a sensor takes its image.
#[derive(Clone, Copy, PartialEq, Eq, Debug)]
pub enum Format {
    Frame,
    LineScan,
    Pushbroom,
    PanScan,
}

// The two letters of the categories.
#[derive(Clone, Copy)]
pub struct Categories;

// The two letters of the formats.
#[derive(Clone, Copy)]
pub struct Formats;

// SAR and a space, or else a category and a format.
#[derive(Clone, Copy)]
pub struct Sensors;
