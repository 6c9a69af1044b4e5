// The names of a plan's steps.
ghost use Rattle.std.specs.Prelude.{◌≡◌, ◌<◌, [], length, slice_index_or, IfOk};
ghost use Rattle.sas_names.specs.NameTable.{value_of};
ghost use Rattle.sas_names.specs.StepNames.{AreStepsOf, HaveNumbers, AreStepNames, Numbers, step_names};

use crate::name_table::NameTable;
use crate::shapes::{is_shape_of, shapes_of_steps};
use sas_core::Stepwise;
use std::alloc::{AllocError, Global};

/// The names of a plan's steps. The number of a name is that of the first step with this name, from 0.
pub struct StepNames {
    numbers: NameTable<usize>,
    /// The number of the name of each step.
    pub of_steps: Vec<usize>,
    /// For each shape of a name, whether a step's name has it. Most names of operators have another, and so aren't looked up.
    shapes: Vec<bool>,
}

impl Drop for StepNames {
    fn drop(self) {
        let StepNames {
            numbers,
            of_steps,
            shapes,
        } = self;
        drop(numbers);
        drop(of_steps);
        drop(shapes);
    }
}

impl StepNames {
    /// Numbers the names of the plan's steps.
    pub fn new<P: Stepwise>(alloc: Global, plan: &P) -> Result<StepNames, AllocError>
        ensures { IfOk result (λ names. AreStepNames (P.says plan.now).steps names) }
    {
        let shapes = shapes_of_steps(alloc, plan)?;
        let of_steps = Vec::with_capacity(alloc, plan.steps())?;
        let numbers = NameTable::new(alloc, plan.steps())?;
        let mut names = StepNames {
            numbers,
            of_steps,
            shapes,
        };
        for _step in 0..plan.steps() {
            let number = next_number(alloc, plan, &mut names.numbers, names.of_steps.as_slice())?;
            names.of_steps.push(number).unwrap();
        }
        Ok(names)
    }

    /// Returns the number of the name, or `None` if no step has it. `plan` is the plan of these names.
    pub fn number<P: Stepwise>(&self, plan: &P, name: &[u8]) -> Option<usize>
        requires { AreStepNames (P.says plan.now).steps self.now }
        ensures { result ≡ value_of (step_names (P.says plan.now).steps) self.now.numbers name.now }
    {
        if is_shape_of(self.shapes.as_slice(), name) {
            self.numbers.get(plan, name)
        } else {
            None
        }
    }
}

/// Returns the number of the next step's name: that of the step, if the name is new. `of_steps` has the numbers of the steps before it. A
/// name that occurs several times in a row is looked up once.
fn next_number<P: Stepwise>(
    alloc: Global,
    plan: &P,
    numbers: &mut NameTable<usize>,
    of_steps: &[usize],
) -> Result<usize, AllocError>
    requires step { length of_steps.now < length (P.says plan.now).steps }
    requires numbers { AreStepsOf (P.says plan.now).steps numbers.old }
    requires each { HaveNumbers (P.says plan.now).steps numbers.old of_steps.now }
    ensures { IfOk result (λ number. Numbers (P.says plan.now).steps
        (slice_index_or (P.says plan.now).steps (length of_steps.now) []) number
        numbers.old numbers.new) }
{
    let step = of_steps.len();
    let name = plan.step(step);
    if step > 0 && plan.step(step - 1) == name {
        return Ok(of_steps[step - 1]);
    }
    if let Some(number) = numbers.get(plan, name) {
        return Ok(number);
    }
    numbers.put(alloc, plan, step)?;
    Ok(step)
}
