//! Tasks and plans as plain data: their types, which values a file may contain, and the traits by which tasks and plans are read regardless
//! of how they are stored.
#![tactic(auto)]

mod checks;
mod grounded;
mod items;
mod names;
mod parts;
mod plan;
mod stepwise;
mod task;

pub use checks::{PartsFault, check};
pub use grounded::{Change, Grounded};
pub use items::Items;
pub use names::{is_name, is_one_line};
pub use parts::{Effect, Fact, Operator, Parts, Rule, Variable};
pub use plan::{BadName, CostKind, Plan};
pub use stepwise::Stepwise;
pub use task::{Task, range_laws};
