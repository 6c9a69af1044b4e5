// The refusal of a task that isn't layered, with the reasons, as it goes out.
ghost use Rattle.std.specs.Prelude.{◌≡◌, false, Some, IsSomeAnd};
ghost use Rattle.sas_answers.specs.Ending.{EndsCounting, Writes};
ghost use Rattle.sas_task_reasons.specs.WhyLayers.{why_refusal};

use crate::layers::layer_reasons;
use sas_answers::{NameSource, Status, ToolFault, refuse_layers, write_reasons};
use sas_flat::FlatTask;
use sas_lines::Watched;
use sas_meaning::LayerFault;
use std::alloc::Global;
use std::io::Write;

/// Writes the refusal of the task for a fault of its layers, with the reasons, and returns its status. The names in the reasons are
/// looked up as they go out, in pieces. If an `Err` isn't a failed write, it is `Memory`, and nothing was written: all memory is
/// allocated before the first byte. For the fault `Memory` it returns such an `Err`. Not to be called after a failure.
pub fn write_unlayered<W: Write>(
    alloc: Global,
    task: &FlatTask,
    fault: LayerFault,
    out: &mut Watched<W>,
) -> Result<Status, ToolFault>
    requires { out.old.failed ≡ false }
    ensures { Writes W.contents (EndsCounting
        (λ output. IsSomeAnd output (λ refusal. why_refusal task.now fault ≡ Some refusal)))
        out.old out.new result }
{
    let refusal = refuse_layers(alloc, fault)?;
    let reasons = layer_reasons(alloc, task, fault)?;
    let named = NameSource { task, plan: None };
    write_reasons(alloc, out, &refusal, &named, reasons.as_slice())
}
