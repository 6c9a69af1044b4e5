//! The words of the command line: which of them are a call of the program, and what it calls for.
#![tactic(auto)]

mod calls;
mod grammar;

pub use calls::{Call, Named, WordsFault, call_of};
