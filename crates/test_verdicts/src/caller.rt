// A caller of the crates: checks a plan, and promises what its answer means.
ghost use Rattle.std.specs.Prelude.{◌≡◌, ℕ, List, IfSome};
ghost use Rattle.sas_core.specs.declared.parts.Parts.{Parts};
ghost use Rattle.sas_core.specs.PlanParts.{PlanParts};
ghost use Rattle.sas_meaning.specs.Layers.{IsLayered};
ghost use Rattle.sas_plan_file.specs.PlanTexts.{plan_texts};
ghost use Rattle.sas_reader.specs.Texts.{Reads};
ghost use Rattle.sas_run.specs.Plans.{IsValid};
ghost use Rattle.sas_task_file.specs.TaskTexts.{task_texts};

use sas_axioms::{Layered, Rounds};
use sas_lines::Watched;
use sas_run::Runner;
use sas_text::{read_plan, read_task};
use std::alloc::Global;

/// Returns the cost of a plan that solves a task. Both are given by the bytes of their files. Returns `None` if a file is refused, the
/// plan doesn't solve the task, or there is no memory.
pub fn cost_if_valid(alloc: Global, task: &[u8], plan: &[u8]) -> Option<u64>
    ensures { IfSome result (λ cost. (t : Parts) × (p : PlanParts) × (operators : List ℕ)
        × Reads task_texts task.now t × IsLayered t × Reads plan_texts plan.now p
        × IsValid t p operators × (p.cost ≡ cost)) }
{
    let task = read_task(alloc, &mut Watched::new(task)).ok()?;
    let plan = read_plan(alloc, &mut Watched::new(plan)).ok()?;
    let layered = Layered::new(alloc, task).ok()?;
    let mut runner = Runner::new(alloc, &layered, Rounds).ok()?;
    let valid = runner.check_plan(alloc, &plan).ok()?;
    Some(valid.cost)
}
