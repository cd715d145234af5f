#![tactic(auto)]

pub mod cells;
pub(crate) mod laid;
pub(crate) mod layout;
pub(crate) mod lengths;
pub mod packed;
pub(crate) mod place;
pub mod rows;
pub mod traits;
