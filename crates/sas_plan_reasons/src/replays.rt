// Traces, which are written as the steps are made once more.
ghost use Rattle.std.specs.Prelude.{◌≡◌, ℕ, List, Some, false};
ghost use Rattle.sas_answers.specs.Ending.{EndsCounting, Writes};
ghost use Rattle.sas_run.specs.ByNumbers.{GoesThroughFrom};
ghost use Rattle.sas_run.specs.Runs.{Run, IsRunFrom};
ghost use Rattle.sas_run.specs.Starts.{IsStart, start_of};
ghost use Rattle.sas_run.specs.Stepping.{IsPrepared};
ghost use Rattle.sas_plan_reasons.specs.Replays.{traced_answer};

use crate::tracing::{Printed, Tracer};
use sas_answers::{Answer, Line, NameSource, Pieces, Status, ToolFault};
use sas_flat::{FlatPlan, FlatTask};
use sas_lines::Watched;
use sas_meaning::{Layered, Settle};
use sas_run::{NumberedPlan, Stepper, replay, starting_state};
use std::alloc::Global;
use std::io::Write;

/// What follows the trace of some steps of a task: the answer, and after it the lines of its reasons. The names of steps in these are those
/// of the plan, if there is one.
#[derive(Clone, Copy)]
pub struct Replay<'r, 'p> {
    pub task: &'r Layered<FlatTask>,
    pub verdict: &'r Answer,
    pub reasons: &'r [Line],
    pub plan: Option<&'p FlatPlan>,
}

/// Writes the trace of the steps that were made, which all succeed, and after it the answer, in pieces. Returns the answer's status. If an `Err` isn't a failed write, it
/// is `Memory`, and nothing was written: all memory is allocated before the first byte. Not to be called after a failure.
pub fn write_replay<'x, W: Write, E: Settle<FlatTask> + Drop>(
    alloc: Global,
    stepper: &mut Stepper<E>,
    its: &Replay<'x, 'x>,
    made: &NumberedPlan<'_>,
    out: &mut Watched<W>,
) -> Result<Status, ToolFault>
    requires prepared { IsPrepared E.ready its.now.task.now stepper.old }
    requires start { IsStart its.now.task.now made.now.start.now }
    requires through { (last : List ℕ) × GoesThroughFrom its.now.task.now
        (start_of its.now.task.now made.now.start.now) made.now.operators.now last }
    requires out { out.old.failed ≡ false }
    ensures prepared { IsPrepared E.ready its.now.task.now stepper.new }
    ensures writes { (run : Run)
        → IsRunFrom its.now.task.now (start_of its.now.task.now made.now.start.now) run
        → run.operators ≡ made.now.operators.now
        → Writes W.contents (EndsCounting (λ output. output ≡ Some (traced_answer its.now run)))
        out.old out.new result }
{
    let mut state = starting_state(alloc, its.task, stepper, made.start)?;
    let mut printed = Printed::new(alloc, its.task, &state)?;
    let mut pieces = Pieces::new(alloc)?;
    let source = NameSource {
        task: its.task.task(),
        plan: its.plan,
    };
    let ended = {
        let mut tracer = Tracer::new(its.verdict.status, &mut printed, &mut pieces, out);
        tracer.push_initial(its.task, &state);
        replay(its.task, stepper, made, &mut state, &mut tracer);
        tracer.push_answer(its.verdict.text.as_slice(), &source, its.reasons);
        tracer.finish()
    };
    drop(printed);
    drop(pieces);
    ended
}
