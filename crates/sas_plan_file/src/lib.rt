//! Reads plan files in pieces, and writes them. A fault is reported with its line and kind.
#![tactic(auto)]

mod laws;
mod name_list;
mod plan;
mod plan_line;
mod plan_machine;
mod plan_reader;
mod plan_refusal;
mod plan_text;
mod plan_writer;

pub use laws::{plan_fault_laws, plan_laws};
pub use name_list::NameList;
pub use plan::{flat_plan_of, read_flat_plan, read_plan, read_plan_text};
pub use plan_machine::PlanMachine;
pub use plan_reader::PlanReader;
pub use plan_refusal::PlanRefusal;
pub use plan_writer::encode_plan;
