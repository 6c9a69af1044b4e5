//! Shared code of the test programs, which call the libraries: parses the calls that standard input requests, and prints the results. `sas`
//! doesn't use it.
//!
//! The first line of a call is its name and, for some calls, a word for its kind. The bytes of the call follow. The program prints `not
//! made` if it doesn't make a call: it is unknown, its bytes have another form, or there is no memory for what it is given. It prints
//! `out of memory` if there was no memory for the call. A line that begins with `WRONG` reports a mistake. The comment at each call names
//! the mistakes that it can detect and a proof can't.
#![tactic(auto)]

mod asked;
mod devices;
mod given;
mod saying;

pub use asked::{TestCall, answer, cut, number_in, text_of};
pub use devices::{ScriptedReader, failure, narrow_of};
pub use given::{fact_of, plan_of, task_of};
pub use saying::{say, say_bytes, say_debug, say_either, say_line, say_number, say_text};
