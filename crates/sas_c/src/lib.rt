//! The requests of `sas` as a library for programs in C, C++, Rust or Python. Each call takes bytes in memory, and writes its answer,
//! which is what the program prints, into memory of the caller's. A task may be held between two calls.
#![tactic(auto)]

mod answering;
mod box_pointer;
mod numbers;
mod plans;
mod requests;
mod runs;
mod sas_task;
mod task_pointer;
mod tasks;
mod telling;

pub use runs::SasRun;
pub use sas_task::{HeldTask, SasTask};
