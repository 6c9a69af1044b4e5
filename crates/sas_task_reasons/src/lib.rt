//! The answer about the mutex groups of a task in memory, and the reasons why a task is refused or groups aren't exclusive. No
//! file is read.
#![tactic(auto)]

mod facts;
mod giver;
mod groups;
mod laws;
mod layers;
mod reason;
mod reasons;
mod unlayered;

pub use groups::write_groups;
pub use laws::{layer_reasons_law, reason_laws};
pub use reason::Reason;
pub use reasons::group_reasons;
pub use sas_mutex::Failure;
pub use unlayered::write_unlayered;
