#![tactic(auto)]

pub mod area;
pub mod law;
pub mod seen;
