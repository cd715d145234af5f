#![tactic(auto)]

pub mod fill;
pub mod kinds;
pub mod limits;
pub mod objects;
pub mod opened;
pub mod setup;
pub mod tables;
