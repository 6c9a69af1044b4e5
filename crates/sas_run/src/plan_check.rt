// Checks whether a plan is valid.
ghost use Rattle.std.specs.Prelude.{◌≡◌, ◌^◌, ◌+◌, ◌<◌, IfOk, IfErr};
ghost use Rattle.sas_run.specs.Choosers.{EndsPlan, IsFaultByOrMemory, IsSolutionBy};
ghost use Rattle.sas_run.specs.Starts.{start_of};
ghost use Rattle.sas_run.specs.Stepping.{IsPrepared};

use crate::choosers::Chooser;
use crate::executor::make_steps;
use crate::goal_and_cost::last_fault;
use crate::starts::starting_state;
use crate::stepper::Stepper;
use sas_core::Grounded;
use sas_meaning::{Layered, Settle};
use std::alloc::{AllocError, Global};

/// The result for a valid plan: the operators of its steps, and its cost.
#[derive(Debug, PartialEq, Eq, Drop)]
pub struct Valid {
    pub operators: Vec<u32>,
    pub cost: u64,
}

/// Why a plan isn't valid. Steps are counted from 1, operators and facts of the goal from 0.
#[derive(Clone, Copy, Debug, PartialEq, Eq)]
pub enum PlanFault {
    /// Out of memory.
    Memory,
    /// No operator has the step's name or number.
    NoOperator { step: usize },
    /// Operators have the step's name, but none of them is applicable. Or the operator with the step's number isn't.
    NotApplicable { step: usize },
    /// Two effects of the step's operator fire and set one variable to different values.
    Conflict { step: usize, operator: u32 },
    /// All steps succeed, but this fact of the goal doesn't hold. It is the first such fact.
    GoalMissed { index: u32 },
    /// All steps succeed and the goal holds, but the operators' costs add up to `sum`, which isn't the plan's cost.
    CostDiffers { sum: u128 },
}

/// How a plan ends: the operators of the steps before its fault, and the fault, or `None` if it is valid.
#[derive(Drop)]
pub struct PlanEnd {
    pub operators: Vec<u32>,
    pub fault: Option<PlanFault>,
}

impl From<AllocError> for PlanFault {
    ghost use Rattle.sas_run.specs.declared.plan_check.PlanFault.TheVariants.{Memory};

    ghost from_gives = { λ _ e. e ≡ Memory };

    fn from(_error: AllocError) -> PlanFault {
        PlanFault::Memory
    }
}

/// Checks whether the plan is valid. All memory is allocated before the first step.
pub fn check<E: Settle<T> + Drop, T: Grounded, C: Chooser<T>>(
    alloc: Global,
    layered: &Layered<T>,
    stepper: &mut Stepper<E>,
    chooser: &C,
) -> Result<Valid, PlanFault>
    requires prepared { IsPrepared E.ready layered.now stepper.old }
    requires ready { C.ready chooser.now layered.now }
    ensures prepared { IsPrepared E.ready layered.now stepper.new }
    ensures valid { IfOk result (IsSolutionBy layered.now
        (start_of layered.now (C.starts chooser.now))
        (C.means chooser.now layered.now) (C.count chooser.now) (C.costs chooser.now)) }
    ensures fault { IfErr result (IsFaultByOrMemory layered.now
        (start_of layered.now (C.starts chooser.now))
        (C.means chooser.now layered.now) (C.count chooser.now) (C.costs chooser.now)) }
{
    let end = find_end(alloc, layered, stepper, chooser)?;
    match end.fault {
        None => Ok(Valid {
            operators: end.operators,
            cost: chooser.cost(),
        }),
        Some(fault) => Err(fault),
    }
}

/// Makes the plan's steps up to its fault, and tests the goal and the cost if there is none. All memory is allocated before the first step.
pub fn find_end<E: Settle<T> + Drop, T: Grounded, C: Chooser<T>>(
    alloc: Global,
    layered: &Layered<T>,
    stepper: &mut Stepper<E>,
    chooser: &C,
) -> Result<PlanEnd, AllocError>
    requires prepared { IsPrepared E.ready layered.now stepper.old }
    requires ready { C.ready chooser.now layered.now }
    ensures prepared { IsPrepared E.ready layered.now stepper.new }
    ensures ends { IfOk result (λ end. EndsPlan layered.now
        (start_of layered.now (C.starts chooser.now)) (C.means chooser.now layered.now)
        (C.count chooser.now) (C.costs chooser.now) end.operators.items end.fault) }
{
    let mut operators = Vec::with_capacity(alloc, chooser.steps())?;
    let start = chooser.start(layered);
    let mut state = starting_state(alloc, layered, stepper, start)?;
    let fault = match make_steps(layered, stepper, chooser, &mut state, &mut operators) {
        Some(fault) => Some(fault),
        None => last_fault(layered, operators.as_slice(), &state, chooser.cost()),
    };
    Ok(PlanEnd { operators, fault })
}
