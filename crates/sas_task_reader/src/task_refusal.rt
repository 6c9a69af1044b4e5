// Why a task file is refused.
ghost use Rattle.std.specs.Prelude.{◌≡◌, ◌≢◌, ◌↔◌, List, ℕ, None, IsTrue, IsSomeAnd};
ghost use Rattle.sas_lines.specs.Lines.{without_return};
ghost use Rattle.sas_reader.specs.Found.{IsFoundOf, kept_bytes};
ghost use Rattle.sas_reader.specs.Refusals.{StandsBehind};
ghost use Rattle.sas_task_reader.specs.TaskMachine.{task_behavior};
ghost use Rattle.sas_task_reader.specs.TaskRefusal.{HasReason};

use crate::{Keeper, TaskMachine};
use sas_lines::without_return;
use sas_reader::{Excerpt, Fault, Kind, Refusal};
use sas_task_file::{ListCount, Mark, WrongWord};

/// Why a task file is refused: its first fault, the location of the fault and what was expected there, the first wrong word of the line, if
/// any, the count of the list whose item was expected there or whose last item is directly before, if any, what is kept of the text there, and
/// whether only the last line end is missing.
#[derive(Clone, Copy)]
pub struct TaskRefusal {
    pub fault: Fault,
    pub mark: Mark,
    pub word: Option<WrongWord>,
    pub count: Option<ListCount>,
    pub found: Excerpt,
    /// The fault is `End`, and with one line end (LF) more the file is one of a task.
    pub lacks_line_end: bool,
}

/// Returns the wrong word if the line is refused for a number.
fn word_of(kind: Kind, wrong: Option<WrongWord>) -> Option<WrongWord>
    ensures value { kind ≡ Kind.Value → result ≡ wrong }
    ensures another { kind ≢ Kind.Value → result ≡ None }
{
    match kind {
        Kind::Value => wrong,
        _ => None,
    }
}

/// Returns whether only a line end is missing: the text at an early end is the last line.
fn lacks_line_end(kind: Kind, found: &Excerpt, last: Option<&'static [u8]>) -> bool
    ensures { IsTrue result ↔ (kind ≡ Kind.End)
        × IsSomeAnd last.entry (λ line. without_return (kept_bytes found.now) ≡ line.now) }
{
    match last {
        Some(line) => kind == Kind::End && without_return(found.bytes()) == line,
        None => false,
    }
}

impl TaskRefusal {
    /// Converts a refusal of the machine to that of a task file.
    pub(crate) fn of<K: Keeper>(refused: Refusal<TaskMachine<K>>) -> TaskRefusal
        ensures fault { result.fault ≡ refused.fault }
        ensures found { result.found ≡ refused.found }
        ensures reason { (accepted : List (List ℕ)) (text : List ℕ)
            → StandsBehind (task_behavior K.keeps) accepted text refused.fault.kind refused.machine
            → IsFoundOf refused.fault.kind text refused.found
            → HasReason accepted text result }
    {
        let Refusal {
            fault,
            machine,
            found,
        } = refused;
        let mark = machine.judge.mark();
        let word = word_of(fault.kind, machine.wrong);
        let count = machine.judge.count();
        let last = machine.judge.last_line();
        drop(machine);
        TaskRefusal {
            fault,
            mark,
            word,
            count,
            found,
            lacks_line_end: lacks_line_end(fault.kind, &found, last),
        }
    }
}
