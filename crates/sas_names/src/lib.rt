//! Finds operators by their names: those of a whole task, or of the steps of one plan.
#![tactic(auto)]

mod digest;
mod name_table;
mod named;
mod names;
mod shapes;
mod step_names;
mod step_operators;

pub use names::{Names, existing};
pub use step_operators::{StepOperators, nameless, next_in};
