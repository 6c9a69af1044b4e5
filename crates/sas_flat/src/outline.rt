// The outline of a task.
use crate::variables::Variables;
use sas_core::{Fact, Items};

/// The parts of a task that a summary shows: everything except its groups, operators and rules, of which only the numbers are kept.
#[derive(Drop)]
pub struct Outline {
    /// True for metric 1, false for metric 0.
    pub metric: bool,
    pub variables: Variables,
    /// The number of mutex groups.
    pub groups: u32,
    /// The state section: one value for each variable.
    pub init: Items<u32>,
    pub goal: Items<Fact>,
    /// The number of operators.
    pub operators: u32,
    /// The number of axiom rules.
    pub rules: u32,
}
