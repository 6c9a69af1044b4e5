//! Reads task files in pieces. A judge decides for each line whether it is allowed there, and a keeper stores what the line adds. A fault is
//! reported with its line and kind.
#![tactic(auto)]

mod flat_so_far;
mod fronts;
mod keeper;
mod task;
mod task_judge;
mod task_machine;
mod task_outline;
mod task_reader;
mod task_refusal;
mod task_text;

pub use keeper::{Keeper, ParsedSection};
pub use sas_task_file::Place;
pub use task::{read_flat_task, read_outline, read_task, read_task_text};
pub use task_judge::{Section, TaskJudge};
pub use task_machine::TaskMachine;
pub use task_reader::TaskReader;
pub use task_refusal::TaskRefusal;
