// How the program ends: its exit status, and what it writes to standard error.
ghost use Rattle.std.specs.Prelude.{◌≡◌, ◌++◌, codes, false};
ghost use Rattle.std.specs.Option.{option_copied};
ghost use Rattle.sas_tool.specs.Endings.{Puts, error_text, is_about_input, line_of, name_text, status_of};
ghost use Rattle.sas_tool.specs.Statuses.{error_line, exit_status};

use crate::arguments::Source;
use crate::{Status, ToolFault};
use sas_answers::show_name;
use sas_lines::{Watched, write_out};
use std::io::Write;

/// The exit status where the answer is yes.
pub const YES: u8 = 0;

/// The exit status where the answer is no.
pub const NO: u8 = 1;

/// The exit status for invalid arguments.
pub const INVALID_ARGUMENTS: u8 = 2;

/// The exit status if there is no answer.
pub const FAULT: u8 = 3;

pub const OUT_OF_MEMORY: &str = "sas: out of memory";

pub const WRITE_FAILED: &str = "sas: write failed";

pub const INPUT_TWICE: &str = "sas: standard input used twice";

pub const NOT_READY: &str = "sas: cannot open /dev/null";

/// How a run over files ended.
#[derive(Clone, Copy)]
pub enum Ended {
    /// A standard stream that is closed couldn't be replaced.
    NotReady,
    TaskNotOpened,
    PlanNotOpened,
    Answered(Result<Status, ToolFault>),
}

impl Ended {
    /// Returns the exit status, and the line for standard error, without its end, if there is one.
    fn status_and_line(&self) -> (u8, Option<&'static str>)
        ensures status { result.0 ≡ status_of self.now }
        ensures line { option_copied result.1 ≡ line_of self.now }
    {
        match self {
            Ended::NotReady => (FAULT, Some(NOT_READY)),
            Ended::TaskNotOpened => (FAULT, Some("sas: cannot open the task")),
            Ended::PlanNotOpened => (FAULT, Some("sas: cannot open the plan")),
            Ended::Answered(result) => ending(result),
        }
    }

    /// Returns whether the line on standard error is about an input.
    fn is_about_input(&self) -> bool
        ensures { result ≡ is_about_input self.now }
    {
        matches!(
            self,
            Ended::TaskNotOpened
                | Ended::PlanNotOpened
                | Ended::Answered(Err(ToolFault::Read | ToolFault::TooLong))
        )
    }
}

/// Returns the exit status of a result, and the line for standard error, without its end, if there is no answer.
pub fn ending(ended: &Result<Status, ToolFault>) -> (u8, Option<&'static str>)
    ensures status { result.0 ≡ exit_status ended.now }
    ensures line { option_copied result.1 ≡ error_line ended.now }
{
    match ended {
        Ok(Status::Yes) => (YES, None),
        Ok(Status::No) => (NO, None),
        Err(ToolFault::Memory) => (FAULT, Some(OUT_OF_MEMORY)),
        Err(ToolFault::Read) => (FAULT, Some("sas: read failed")),
        Err(ToolFault::TooLong) => (FAULT, Some("sas: input too long")),
        Err(ToolFault::Write { .. }) => (FAULT, Some(WRITE_FAILED)),
    }
}

/// Returns the exit status of a run, after its line on standard error, if there is one. With reasons a second line names the input that
/// the first one is about: the last one that was opened or read.
pub fn finish<E: Write>(
    errors: &mut Watched<E>,
    ended: Ended,
    why: bool,
    last: &Option<Source>,
) -> u8
    ensures status { result ≡ status_of ended }
    ensures text { Puts E.contents (error_text ended why last.now) errors.old errors.new }
{
    let (status, line) = ended.status_and_line();
    if let Some(line) = line {
        put_line(errors, line.as_bytes());
        if why && ended.is_about_input() {
            put_name(errors, last);
        }
    }
    status
}

/// Ends with this exit status, after a line on standard error.
pub fn stop<E: Write>(errors: &mut Watched<E>, status: u8, line: &str) -> u8
    ensures status { result ≡ status }
    ensures text { Puts E.contents (line.now ++ codes "\n") errors.old errors.new }
{
    put_line(errors, line.as_bytes());
    status
}

/// Writes the line with the name of an input, if there is one, as reasons show names. Its bytes needn't be text, since a long name is
/// cut.
fn put_name<E: Write>(errors: &mut Watched<E>, source: &Option<Source>)
    ensures { Puts E.contents (name_text source.now) errors.old errors.new }
{
    if let Some(source) = source {
        let mut room = [0; 1028];
        let end = show_name(&mut room, source.name());
        put(errors, b"  ");
        put_line(errors, &room[..end]);
    }
}

/// Writes a line to standard error.
pub fn put_line<E: Write>(errors: &mut Watched<E>, line: &[u8])
    ensures { Puts E.contents (line.now ++ codes "\n") errors.old errors.new }
{
    put(errors, line);
    put(errors, b"\n");
}

/// Writes to standard error, unless a write to it has failed. A failure is ignored.
pub fn put<E: Write>(errors: &mut Watched<E>, text: &[u8])
    ensures { Puts E.contents text.now errors.old errors.new }
{
    if !errors.failed() {
        let _ = write_out(errors, text);
    }
}
