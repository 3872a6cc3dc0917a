ghost use Rattle.std.specs.Prelude.{◌≤◌};

// A sign and digits, from -below to +above; minus zero does not read.
#[derive(Clone, Copy)]
pub struct Signed {
    pub digits: usize,
    pub below: u64,
    pub above: u64,
    ghost some: { 1 ≤ digits },
    ghost few: { digits ≤ 18 },
}
