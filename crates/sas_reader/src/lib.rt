//! Reads a text of any line format in pieces, and reports the line and the kind of its first fault.
#![tactic(auto)]

mod affixes;
mod devices;
mod fault;
mod found;
mod reader;
mod scanning;

pub use affixes::{before, behind, closed_name};
pub use devices::{read_all, read_all_large};
pub use fault::{Fault, Kind};
pub use found::{Excerpt, FOUND};
pub use reader::{Front, LIMIT, Machine, Reader, Refusal, limit_law};
pub use scanning::{AnyEnd, Lf, LineEnd, plain_end};
