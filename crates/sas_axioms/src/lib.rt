//! Axiom evaluators, which settle states. Layered tasks, states, the evaluator trait and the laws are defined in `sas_meaning` and
//! re-exported here.
#![tactic(auto)]

mod agenda;
mod by_layers;
mod conditions;
mod counting;
mod firing;
mod following;
mod indexed_rules;
mod layer_rules;
mod rounds;
mod worklist;

pub use conditions::{RuleCondition, index_of_all};
pub use counting::{are_changed, part_end};
pub use layer_rules::rules_of_variables;
pub use rounds::Rounds;
pub use sas_meaning::{LayerFault, Layered, Settle, State, StateFault, meaning_laws};
pub use worklist::Worklist;
