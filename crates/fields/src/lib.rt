#![tactic(auto)]

pub mod accuracies;
pub mod accuracy;
pub mod date_stamps;
pub mod focal;
pub mod focals;
pub mod minute_stamps;
pub mod moment_stamps;
pub mod name;
pub mod names;
pub mod segment;
pub mod segments;
pub mod spacing;
pub mod spacings;
pub mod stamp;
