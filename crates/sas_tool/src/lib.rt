//! The tool: the arguments, the devices of its inputs, and how the program ends.
#![tactic(auto)]

mod arguments;
mod endings;
mod files;
mod memory;
mod plan_files;
mod program;
mod runs;
mod streams;
mod until_end;

pub use files::{Inputs, NamedFiles};
pub use memory::{FilesInMemory, answer_in_memory};
pub use program::{answer_words, start};
// For tests: what words request, and how the program ends.
#[doc(hidden)]
pub use arguments::{Job, Source, command};
#[doc(hidden)]
pub use endings::ending;
pub use sas_requests::{
    Detail, InputFault, JudgeFault, PlanInputs, Question, Request, Status, ToolFault, answer,
    answer_laws, judge, judge_laws, run,
};
pub use sas_words::WordsFault;
