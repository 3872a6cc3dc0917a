#![tactic(auto)]

pub mod fields;
pub mod header;
pub mod look;
pub mod records;
