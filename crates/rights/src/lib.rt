#![tactic(auto)]

pub mod bits;
pub(crate) mod codes;
pub mod names;
pub mod rule;
pub mod steps;
pub mod table;
