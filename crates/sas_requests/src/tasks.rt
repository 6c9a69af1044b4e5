// Tasks that are read and are layered. Others are refused.
ghost use Rattle.std.specs.Prelude.{◌≡◌, false, Ok, Some, IsSomeAnd};
ghost use Rattle.sas_meaning.specs.Layers.{IsLayered};
ghost use Rattle.sas_answers.specs.Ending.{Answers, EndsCounting, Writes};
ghost use Rattle.sas_reader.specs.Devices.{ReadsAll, ValueOf};
ghost use Rattle.sas_task_file.specs.TaskFormat.{task_format};
ghost use Rattle.sas_requests.specs.EndsRequest.{EndsFile};
ghost use Rattle.sas_requests.specs.Answering.{IfEnded, IfLayered, TaskBy, UnlayeredBy};
ghost use Rattle.sas_requests.specs.OutBy.{layers_by};

use crate::refusals::write_task_refusal;
use crate::{Detail, Status, ToolFault};
use sas_answers::refuse_layers;
use sas_flat::FlatTask;
use sas_lines::Watched;
use sas_meaning::{LayerFault, Layered};
use sas_task_reader::read_flat_task;
use sas_task_reasons::write_unlayered;
use std::alloc::Global;
use std::io::{Read, Write};

/// What came of reading a task.
#[derive(Drop)]
pub enum ReadTask {
    /// The task, which is layered.
    Layered(Layered<FlatTask>),
    /// How the run has ended without one.
    Ended(Result<Status, ToolFault>),
}

/// Reads a layered task. Where the file is no task, or the task isn't layered, the run ends with the refusal, which is written. At
/// `Write` the first bytes of the refusal were written; at any other fault nothing was. Not to be called with a device that has failed.
pub fn read_layered<R: Read, W: Write>(
    alloc: Global,
    detail: Detail,
    task: &mut Watched<R>,
    out: &mut Watched<W>,
) -> ReadTask
    requires task { task.old.failed ≡ false }
    requires out { out.old.failed ≡ false }
    ensures read { IfLayered result (λ p.
        ReadsAll R.remaining task_format (ValueOf task_format) task.old task.new (Ok p)) }
    ensures layered { IfLayered result IsLayered }
    ensures silent { IfLayered result (λ p. out.new ≡ out.old) }
    ensures refused { IfEnded result (Answers W.contents
        (EndsFile R.remaining (TaskBy detail.reasons (UnlayeredBy detail.reasons))
        task.old task.new)
        out.old out.new) }
{
    let read = match read_flat_task(alloc, task) {
        Ok(read) => read,
        Err(refusal) => {
            return ReadTask::Ended(write_task_refusal(alloc, detail, refusal, out));
        }
    };
    match Layered::new(alloc, read) {
        Ok(layered) => ReadTask::Layered(layered),
        Err((read, fault)) => {
            let ended = refuse_unlayered(alloc, detail, &read, fault, out);
            drop(read);
            ReadTask::Ended(ended)
        }
    }
}

/// Writes the refusal of a task for a fault of its layers.
fn refuse_unlayered<W: Write>(
    alloc: Global,
    detail: Detail,
    task: &FlatTask,
    fault: LayerFault,
    out: &mut Watched<W>,
) -> Result<Status, ToolFault>
    requires { out.old.failed ≡ false }
    ensures { Writes W.contents (EndsCounting
        (λ output. IsSomeAnd output
        (λ reported. layers_by detail.reasons task.now fault ≡ Some reported)))
        out.old out.new result }
{
    if detail.reasons {
        write_unlayered(alloc, task, fault, out)
    } else {
        refuse_layers(alloc, fault)?.write(out)
    }
}
