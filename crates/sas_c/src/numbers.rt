// How an answer is returned as a number.
ghost use Rattle.std.specs.Prelude.{◌≡◌};
ghost use Rattle.sas_c.specs.Telling.{number_of_fault, number_of_status};

use sas_answers::{Status, ToolFault};

/// The answer is written, and is yes.
pub const YES: u32 = 0;
/// The answer is written, and is no, or a file is refused.
pub const NO: u32 = 1;
/// The answer is longer than the caller's memory for it. Its length is written.
pub const ROOM_TOO_SHORT: u32 = 2;
/// Memory was refused.
pub const OUT_OF_MEMORY: u32 = 3;
/// An input is longer than the most bytes that are read.
pub const INPUT_TOO_LONG: u32 = 4;
/// No task is held.
pub const NO_TASK: u32 = 5;

/// Returns the number of a status.
pub fn status_number(status: Status) -> u32
    ensures { result ≡ number_of_status status }
{
    match status {
        Status::Yes => YES,
        Status::No => NO,
    }
}

/// Returns the number of a run that ended without an answer. Bytes in memory are read and written without a failure, so only
/// `TooLong` and `Memory` occur.
pub fn fault_number(fault: ToolFault) -> u32
    ensures { result ≡ number_of_fault fault }
{
    match fault {
        ToolFault::TooLong => INPUT_TOO_LONG,
        ToolFault::Memory | ToolFault::Read | ToolFault::Write { .. } => OUT_OF_MEMORY,
    }
}
