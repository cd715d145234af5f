#![tactic(auto)]

pub mod carry;
pub mod grants;
pub mod recode;
pub mod slots;
pub mod walk;
