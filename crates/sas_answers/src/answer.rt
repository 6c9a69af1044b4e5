// A text in memory, and how it is written.
ghost use Rattle.std.specs.Prelude.{◌≡◌, false, Some, IfErr};
ghost use Rattle.sas_answers.specs.Ending.{output_of, Ends, IsWrite, Writes};

use crate::ending::{Status, ToolFault};
use sas_lines::{Watched, write_lines, write_out};
use std::io::Write;

/// An answer: a text, and its status.
#[derive(Drop)]
pub struct Answer {
    pub text: Vec<u8>,
    pub status: Status,
}

impl Answer {
    /// Writes the text, and returns its status. Not to be called after a failure.
    pub fn write<W: Write>(&self, out: &mut Watched<W>) -> Result<Status, ToolFault>
        requires { out.old.failed ≡ false }
        ensures writes { Writes W.contents (Ends (λ output. output ≡ Some (output_of self.now)))
            out.old out.new result }
        ensures write { IfErr result IsWrite }
    {
        write_out(out, self.text.as_slice())?;
        Ok(self.status)
    }

    /// Writes the text as `write` does, but whole lines at a time, which a pipe doesn't mix with those of other writers.
    pub fn write_lines<W: Write>(&self, out: &mut Watched<W>) -> Result<Status, ToolFault>
        requires { out.old.failed ≡ false }
        ensures writes { Writes W.contents (Ends (λ output. output ≡ Some (output_of self.now)))
            out.old out.new result }
        ensures write { IfErr result IsWrite }
    {
        write_lines(out, self.text.as_slice())?;
        Ok(self.status)
    }
}
