// How a run ends.
ghost use Rattle.std.specs.Prelude.{◌≡◌};

use sas_lines::Short;
use std::alloc::AllocError;
use thiserror::Error;

/// The status of an answer: the answer in one word.
#[derive(Clone, Copy, Debug, PartialEq, Eq)]
pub enum Status {
    /// The file is a text of its format. If the request requires it, the task is layered, the plan is valid, and all groups are
    /// exclusive. The answer was written.
    Yes,
    /// A file is refused, or the plan isn't valid, or a group isn't shown to be exclusive. This answer was written.
    No,
}

/// Why there is no answer, or not all of it was written.
#[derive(Clone, Copy, Debug, PartialEq, Eq, Error)]
pub enum ToolFault {
    /// Memory was refused.
    #[error("out of memory")]
    Memory,
    /// A read failed.
    #[error("read failed")]
    Read,
    /// An input is longer than the most bytes that are read.
    #[error("input too long")]
    TooLong,
    /// A write failed, and the first `written` bytes of the answer had been written before.
    #[error("write failed")]
    Write { written: usize },
}

impl From<AllocError> for ToolFault {
    ghost use Rattle.sas_answers.specs.declared.ending.ToolFault.TheVariants.{Memory};

    ghost from_gives = { λ _ e. e ≡ Memory };

    fn from(_error: AllocError) -> ToolFault {
        ToolFault::Memory
    }
}

impl From<Short> for ToolFault {
    ghost use Rattle.sas_answers.specs.declared.ending.ToolFault.TheVariants.{Write};

    ghost from_gives = { λ short e. e ≡ Write short.written };

    fn from(short: Short) -> ToolFault {
        ToolFault::Write {
            written: short.written,
        }
    }
}
