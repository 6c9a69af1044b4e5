// Accepts the lines of a plan file and stores them as a text.
ghost use Rattle.std.specs.Prelude.{◌≡◌, ◌<◌, [], ◌∷◌, ◌++◌, length, take, IsTrue, OnOk, IfErr, false};

use crate::plan_line::{PlanLine, plan_line, step_ahead};
use sas_lines::push_line;
use sas_reader::{Front, Kind, LineEnd, Machine};
use std::alloc::Global;

/// The lines so far, each ended by LF, and whether the cost has been read.
#[derive(Drop)]
pub struct PlanText {
    text: Vec<u8>,
    closed: bool,
}

impl PlanText {
    ghost use Rattle.sas_plan_file.specs.PlanText.{KeepsLines};

    /// Returns an empty text.
    pub fn new(alloc: Global) -> Self
        ensures { KeepsLines [] result }
    {
        PlanText {
            text: Vec::new(alloc),
            closed: false,
        }
    }

    /// Returns the text so far.
    pub fn into_text(self) -> Vec<u8>
        ensures { result.items ≡ self.text.items }
    {
        let PlanText { text, .. } = self;
        text
    }

    /// Appends a line.
    fn keep(&mut self, line: &[u8]) -> Result<(), Kind>
        ensures ok { OnOk result
            (self.new.text.items ≡ self.old.text.items ++ (line.now ++ 10 ∷ [])) }
        ensures closed { self.new.closed ≡ self.old.closed }
        ensures err { IfErr result (λ k. k ≡ Kind.Memory) }
    {
        push_line(&mut self.text, line)?;
        Ok(())
    }

    /// Appends the line that consists of the first `count` bytes. It is appended with the byte after it, which is LF, or a CR that becomes LF.
    #[inline(always)]
    fn keep_first(&mut self, bytes: &[u8], count: usize) -> Result<(), Kind>
        requires { count < length bytes.now }
        ensures ok { OnOk result (self.new.text.items
            ≡ self.old.text.items ++ (take count bytes.now ++ 10 ∷ [])) }
        ensures closed { self.new.closed ≡ self.old.closed }
        ensures err { IfErr result (λ k. k ≡ Kind.Memory) }
    {
        // The append stands twice, since a test after it would cost lines with LF a few instructions each.
        if bytes[count] == b'\n' {
            self.text.extend_from_slice(&bytes[..count + 1])?;
            return Ok(());
        }
        self.text.extend_from_slice(&bytes[..count + 1])?;
        let last = self.text.len() - 1;
        self.text[last] = b'\n';
        Ok(())
    }
}

impl Machine for PlanText {
    ghost use Rattle.sas_plan_file.specs.PlanText.{text_behavior};

    ghost behavior = { text_behavior };

    fn has_ended(&self) -> bool {
        self.closed
    }

    fn accept(&mut self, line: &[u8], _number: u64) -> Result<(), Kind> {
        let is_cost = matches!(plan_line(line)?, PlanLine::Cost(..));
        self.keep(line)?;
        self.closed = is_cost;
        Ok(())
    }

    fn accept_ahead<E: LineEnd>(&mut self, bytes: &[u8]) -> Result<Front, Kind> {
        let mut lines = 0;
        let mut rest = bytes;
        while let Some((name, behind)) = step_ahead::<E>(rest) {
            self.keep_first(rest, name.len() + 2)?;
            lines += 1;
            rest = behind;
        }
        Ok(Front {
            lines,
            bytes: bytes.len() - rest.len(),
        })
    }
}
