// A run over a task, a plan or both.
ghost use Rattle.std.specs.Prelude.{◌≡◌, false};
ghost use Rattle.sas_tool.specs.Files.{left_until_end, source_held};
ghost use Rattle.sas_tool.specs.Runs.{IsAnswered, IsLastOf, Ran};

use crate::arguments::Source;
use crate::endings::Ended;
use crate::files::{Inputs, NamedFiles};
use crate::until_end::UntilEnd;
use crate::{Question, Status, ToolFault, answer};
use sas_lines::Watched;
use std::alloc::Global;
use std::io::{Read, Write};

/// Where the task and the plan come from.
#[derive(Clone, Copy)]
pub struct Sources<'s> {
    pub task: &'s Option<Source>,
    pub plan: &'s Option<Source>,
}

/// How a run ended, and the input that it opened or read last.
#[derive(Clone, Copy)]
pub struct Run<'s> {
    pub ended: Ended,
    pub last: &'s Option<Source>,
}

/// Opens a task, a plan or both, and answers the question about them.
pub fn run_files<'s, N: NamedFiles, I: Read + Copy + Drop, W: Write>(
    alloc: Global,
    inputs: Inputs<'_, N, I>,
    question: Question,
    sources: Sources<'s>,
    out: &mut Watched<W>,
) -> Run<'s>
    requires out { out.old.failed ≡ false }
    ensures ran { let held = source_held (N.held inputs.entry.files.now)
        (I.remaining inputs.entry.standard) in
        Ran question (held sources.entry.task.now) (held sources.entry.plan.now)
        (W.contents out.old.device) (W.contents out.new.device) (out.new ≡ out.old)
        result.ended }
    ensures last { IsLastOf sources.entry.task.now sources.entry.plan.now
        result.ended result.last.now }
{
    let Some(ready) = inputs.files.ready() else {
        return Run {
            ended: Ended::NotReady,
            last: sources.task,
        };
    };
    let run = run_ready(alloc, inputs, question, sources, out);
    drop(ready);
    run
}

/// Does so once files may be opened. The task is opened first.
fn run_ready<'s, N: NamedFiles, I: Read + Copy + Drop, W: Write>(
    alloc: Global,
    inputs: Inputs<'_, N, I>,
    question: Question,
    sources: Sources<'s>,
    out: &mut Watched<W>,
) -> Run<'s>
    requires out { out.old.failed ≡ false }
    ensures ran { let held = source_held (N.held inputs.entry.files.now)
        (I.remaining inputs.entry.standard) in
        Ran question (held sources.entry.task.now) (held sources.entry.plan.now)
        (W.contents out.old.device) (W.contents out.new.device) (out.new ≡ out.old)
        result.ended }
    ensures last { IsLastOf sources.entry.task.now sources.entry.plan.now
        result.ended result.last.now }
{
    let Some(task) = inputs.open(sources.task) else {
        return Run {
            ended: Ended::TaskNotOpened,
            last: sources.task,
        };
    };
    let Some(plan) = inputs.open(sources.plan) else {
        drop(task);
        return Run {
            ended: Ended::PlanNotOpened,
            last: sources.plan,
        };
    };
    let (result, begun) = answer_opened(alloc, question, task, plan, out);
    Run {
        ended: Ended::Answered(result),
        last: if begun { sources.plan } else { sources.task },
    }
}

/// Answers the question about inputs that are open. Also returns whether the plan was read, which is read behind the task.
fn answer_opened<T: Read + Drop, P: Read + Drop, W: Write>(
    alloc: Global,
    question: Question,
    task: UntilEnd<T>,
    plan: UntilEnd<P>,
    out: &mut Watched<W>,
) -> (Result<Status, ToolFault>, bool)
    requires out { out.old.failed ≡ false }
    ensures { IsAnswered question (left_until_end T.remaining task)
        (left_until_end P.remaining plan)
        (W.contents out.old.device) (W.contents out.new.device) result.0 }
{
    let mut task = Watched::new(task);
    let mut plan = Watched::new(plan);
    let result = answer(alloc, question, &mut task, &mut plan, out);
    let begun = plan.device().has_begun();
    drop(plan);
    drop(task);
    (result, begun)
}
