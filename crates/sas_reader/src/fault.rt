// What can be wrong with an input.
ghost use Rattle.std.specs.Prelude.{◌≡◌};

use std::alloc::AllocError;

/// The kinds of fault of an input.
#[derive(Clone, Copy, Debug, PartialEq, Eq)]
pub enum Kind {
    /// A fixed word was expected, but the line differs from it. In a plan: the line begins like neither a step nor the cost.
    Keyword,
    /// A name was expected, but the line isn't one. In a plan: the line begins with `(` but isn't a step line.
    Name,
    /// Numbers were expected, but the line has another count of numbers or spells them differently. In a plan: the line begins like the
    /// cost line but isn't one.
    Shape,
    /// In a task: the line has the right shape, but a number in it isn't allowed there.
    Value,
    /// The input ends before the last line is complete.
    End,
    /// A byte follows the last line.
    Trailing,
    /// The input has more bytes than the limit.
    TooLong,
    /// A read failed.
    Read,
    /// Out of memory.
    Memory,
}

impl From<AllocError> for Kind {
    ghost use Rattle.sas_reader.specs.declared.fault.Kind.TheVariants.{Memory};

    ghost from_gives = { λ _ e. e ≡ Memory };

    fn from(_error: AllocError) -> Kind {
        Kind::Memory
    }
}

/// The first fault of an input. The line is 1 plus the number of lines accepted before it. For `Memory`, the line isn't specified.
#[derive(Clone, Copy, Debug, PartialEq, Eq)]
pub struct Fault {
    pub line: u64,
    pub kind: Kind,
}
