//! Lines and numbers in a text, and readers and writers that remember a failure.
#![tactic(auto)]

mod devices;
mod inputs;
mod lines;
mod numbers;
mod packing;
mod separators;
mod spelling;
pub mod trial;
mod writing;

pub use devices::{Failed, Short, Watched, write_lines, write_out};
pub use inputs::OpenInput;
pub use lines::{Fed, FirstLine, Lines, first_line, lines_law, without_return};
pub use numbers::Numbers;
pub use packing::drop_returns;
pub use spelling::{cost, number, signed, spelling_is_decimal};
pub use writing::{push_line, push_number};
