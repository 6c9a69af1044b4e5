//! The two formats of text, the task file and the plan file, read in pieces and written. Each fault is reported at its
//! exact place.
#![tactic(auto)]

mod task_writer;

pub use sas_flat::Outline;
pub use sas_plan_file::{
    PlanReader, PlanRefusal, encode_plan, plan_laws, read_flat_plan, read_plan, read_plan_text,
};
pub use sas_reader::{Excerpt, Fault, Kind, LIMIT};
pub use sas_task_file::{Due, FixedWord, Location, Mark, WrongWord, task_laws};
pub use sas_task_reader::{
    TaskReader, TaskRefusal, read_flat_task, read_outline, read_task, read_task_text,
};
pub use task_writer::encode_task;
