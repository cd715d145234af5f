#![tactic(auto)]

pub mod stores;
