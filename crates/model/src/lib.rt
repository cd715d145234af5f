#![tactic(auto)]

pub mod kinds;
pub mod rights;
pub mod signals;
