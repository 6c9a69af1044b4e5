//! Joint check of mutex groups: which groups of a task are invariants if each may rely on the others. The definitions, the laws and the
//! check of a single group are in `sas_groups`. This crate re-exports the laws and that check.
//!
//! An index has the groups of each fact, the runs of a group's facts on one variable, and the effects of large operators on each variable.
//! Notes have the facts that are known of each group, so that it takes a fixed time to see whether one more contradicts them.
#![tactic(auto)]

mod by_fact;
mod by_variable;
mod deciding;
mod distinct;
mod effects;
mod failures;
mod family;
mod greatest;
mod index;
mod indexed;
mod joint;
mod looking;
mod lowest;
mod notes;
mod recorded;
mod runs;
mod watches;

pub use failures::Failure;
pub use joint::{GroupVerdicts, check_groups, joint_verdicts};
pub use sas_groups::{Facts, Verdict, check_group, group_laws, group_verdict_laws};
