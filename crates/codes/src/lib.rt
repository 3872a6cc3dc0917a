#![tactic(auto)]

pub mod letter;
pub mod mission;
pub mod missions;
pub mod project;
pub mod projects;
pub mod replay;
pub mod replays;
pub mod sensor;
pub mod sensors;
pub mod turn;
pub mod turns;
pub mod unit;
pub mod units;
pub mod version;
pub mod versions;
