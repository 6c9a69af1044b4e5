//! A task or a plan in a few blocks of memory: one or a few for each column, however large it is. And the lists of lists of which these
//! are made: they are stored one after another in one block.
#![tactic(auto)]

mod by_key;
mod columns;
mod effects;
mod ends;
mod lists;
mod operators;
mod outline;
mod plan;
mod task;
mod variables;

pub use by_key::Entry;
pub use columns::TaskColumns;
pub use effects::Effects;
pub use ends::Ends;
pub use lists::{ListColumns, Lists};
pub use operators::{OperatorColumns, Operators};
pub use outline::Outline;
pub use plan::FlatPlan;
pub use task::FlatTask;
pub use variables::{VariableColumns, Variables};
