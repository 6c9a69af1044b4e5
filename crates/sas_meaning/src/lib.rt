//! The semantics of tasks: layered tasks, states, settled states, preconditions, steps and reachable states.
#![tactic(auto)]

mod derived;
mod laws;
mod layer_checks;
mod layered;
mod preconditions;
mod settle;
mod state;
mod steps;

pub use derived::{derived_spans, has_derived};
pub use laws::meaning_laws;
pub use layered::{LayerFault, Layered};
pub use preconditions::Preconditions;
pub use settle::Settle;
pub use state::{State, StateFault, VariableSpan};
pub use steps::step_laws;
