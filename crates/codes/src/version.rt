// A version of software: four digits, a point, two digits.
#[derive(Clone, Copy, PartialEq, Eq, Debug)]
pub struct Version {
    pub release: u64,
    pub change: u64,
}

// Four digits, a point and two digits.
#[derive(Clone, Copy)]
pub struct Versions;
