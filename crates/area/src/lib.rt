#![tactic(auto)]

pub mod answer;
mod fields;
mod filling;
mod finding;
mod holding;
mod part;
pub mod reading;
mod records;
pub mod search;
