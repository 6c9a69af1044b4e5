//! Why a plan isn't valid, and what its steps do: the lines that `--why` prints after the verdict, and the trace of a plan. No file is
//! read.
#![tactic(auto)]

mod anyway;
mod causes;
mod changes;
mod conflicts;
mod detail;
mod faults;
mod history;
mod laws;
mod listing;
mod loaded_task;
mod nameless;
mod order;
mod origins;
mod replays;
mod running;
mod similar;
mod tracing;
mod verdicts;
mod words;
mod writing;

pub use detail::Detail;
pub use faults::reasons;
pub use history::{OtherOperator, PlanHistory};
pub use laws::{cause_laws, derivation_laws, name_laws, since_laws, trace_laws, why_laws};
pub use loaded_task::LoadedTask;
pub use verdicts::answer_plan;
