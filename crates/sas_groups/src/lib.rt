//! Mutex groups: which groups of facts are invariants, by themselves or jointly with others, and the check of a single group.
#![tactic(auto)]

mod clashes;
mod facts;
mod group;
mod keeping;
mod known;
mod laws;
mod removal;
mod verdict;
mod verdict_laws;

pub use facts::Facts;
pub use group::{before_operators, check_group};
pub use known::{Known, Premises};
pub use laws::group_laws;
pub use verdict::Verdict;
pub use verdict_laws::group_verdict_laws;
