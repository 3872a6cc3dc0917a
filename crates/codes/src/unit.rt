// What a length is measured in.
#[derive(Clone, Copy, PartialEq, Eq, Debug)]
pub enum Unit {
    Feet,
    Meters,
    Microradians,
    Unknown,
}

// The units that a field may name.
#[derive(Clone, Copy)]
pub struct Units {
    pub named: &'static [Unit],
}
