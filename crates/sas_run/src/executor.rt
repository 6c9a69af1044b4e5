// Makes the steps of plans, and tells an observer of each.
ghost use Rattle.std.specs.Prelude.{◌≡◌, ◌^◌, ◌+◌, ◌<◌, ℕ, List, [], length, slice_index, IfOk, OnOk};
ghost use Rattle.sas_meaning.specs.Following.{ListsDerived};
ghost use Rattle.sas_meaning.specs.Settled.{Settles};
ghost use Rattle.sas_run.specs.ByNumbers.{GoesThroughFrom};
ghost use Rattle.sas_run.specs.Choosers.{MakesStepBy};
ghost use Rattle.sas_run.specs.Observing.{AreMadeAndSeen, CanSee};
ghost use Rattle.sas_run.specs.NumberFaults.{LeadsAsFar};
ghost use Rattle.sas_run.specs.Starts.{IsStart, start_of};
ghost use Rattle.sas_run.specs.Stepping.{HasChanged, IsAt, IsPrepared};

use crate::choice::Choice;
use crate::choosers::{Chooser, NumberedPlan};
use crate::observer::{NotesNothing, Observer};
use crate::plan_check::PlanFault;
use crate::starts::starting_state;
use crate::stepper::{Stepper, changed_by, go_on_from};
use sas_core::Grounded;
use sas_meaning::{Layered, Settle, State};
use std::alloc::{AllocError, Global};

/// Makes the steps that the chooser chooses operators for, from the state of its start, up to the first that fails. Returns its fault, or
/// `None` if all succeed. Tells the observer of each step that was made. It can't allocate, since it has no allocator.
pub fn make_steps<E: Settle<T> + Drop, T: Grounded, C: Chooser<T>, O: Observer<T>>(
    layered: &Layered<T>,
    stepper: &mut Stepper<E>,
    chooser: &C,
    state: &mut State,
    observer: &mut O,
) -> Option<PlanFault>
    requires at { IsAt E.ready E.follows layered.now stepper.old state.old }
    requires starts { Settles layered.now (start_of layered.now (C.starts chooser.now)) state.old }
    requires ready { C.ready chooser.now layered.now }
    requires observer { CanSee O.admits O.sees layered.now
        (start_of layered.now (C.starts chooser.now))
        (C.means chooser.now layered.now) (C.count chooser.now) observer.old }
    ensures at { IsAt E.ready E.follows layered.now stepper.new state.new }
    ensures made { AreMadeAndSeen O.sees layered.now (start_of layered.now (C.starts chooser.now))
        (C.means chooser.now layered.now) (C.count chooser.now)
        observer.old observer.new state.new result }
{
    for before in 0..chooser.steps() {
        match make_plan_step(layered, stepper, chooser, before, state) {
            Ok(operator) => {
                let derived = changed_by::<E, T>(stepper);
                observer.observe(layered, before + 1, operator, derived, state);
            }
            Err(fault) => return Some(fault),
        }
    }
    None
}

/// Makes the plan's step after so many steps. Returns its operator. If it fails, leaves the state unchanged and returns the fault.
#[tactic(auto, using(crate::proofs::NextStates::fault_is_conflict))]
#[inline(always)]
pub fn make_plan_step<E: Settle<T> + Drop, T: Grounded, C: Chooser<T>>(
    layered: &Layered<T>,
    stepper: &mut Stepper<E>,
    chooser: &C,
    before: usize,
    state: &mut State,
) -> Result<u32, PlanFault>
    requires at { IsAt E.ready E.follows layered.now stepper.old state.old }
    requires ready { C.ready chooser.now layered.now }
    requires exists { before < C.count chooser.now }
    requires few { C.count chooser.now < 2 ^ 64 }
    ensures at { IsAt E.ready E.follows layered.now stepper.new state.new }
    ensures makes { MakesStepBy layered.now (C.means chooser.now layered.now before state.old)
        state.old (before + 1) state.new result }
    ensures changed { OnOk result ((listed : List ℕ) → HasChanged E.changed stepper.new listed
        → ListsDerived layered.now state.old state.new listed) }
{
    let step = before + 1;
    match chooser.choose(layered, state, before) {
        Choice::Unknown => Err(PlanFault::NoOperator { step }),
        Choice::Blocked => Err(PlanFault::NotApplicable { step }),
        Choice::Found(operator) => match go_on_from(layered, stepper, operator, state) {
            Ok(()) => Ok(operator),
            Err(_) => Err(PlanFault::Conflict { step, operator }),
        },
    }
}

/// Makes the steps of a plan by numbers, which all succeed, from the state of its start. Tells the observer of each.
pub fn replay<E: Settle<T> + Drop, T: Grounded, O: Observer<T>>(
    layered: &Layered<T>,
    stepper: &mut Stepper<E>,
    plan: &NumberedPlan<'_>,
    state: &mut State,
    observer: &mut O,
)
    requires at { IsAt E.ready E.follows layered.now stepper.old state.old }
    requires start { IsStart layered.now plan.now.start.now }
    requires starts { Settles layered.now (start_of layered.now plan.now.start.now) state.old }
    requires through { (last : List ℕ)
        × GoesThroughFrom layered.now (start_of layered.now plan.now.start.now)
        plan.now.operators.now last }
    requires none { O.sees layered.now (start_of layered.now plan.now.start.now)
        observer.old observer.old [] }
    requires each { (k : ℕ) → k < length plan.now.operators.now
        → O.admits observer.old layered.now (k + 1) (slice_index plan.now.operators.now k) }
    ensures at { IsAt E.ready E.follows layered.now stepper.new state.new }
    ensures through { GoesThroughFrom layered.now (start_of layered.now plan.now.start.now)
        plan.now.operators.now state.new }
    ensures sees { O.sees layered.now (start_of layered.now plan.now.start.now)
        observer.old observer.new plan.now.operators.now }
{
    make_steps(layered, stepper, plan, state, observer);
}

/// Makes the steps of a plan by numbers, from the state of its start, up to the first that fails. Returns the state to which they lead, and
/// whether all succeed. All memory is allocated before the first step.
pub fn state_behind<E: Settle<T> + Drop, T: Grounded>(
    alloc: Global,
    layered: &Layered<T>,
    stepper: &mut Stepper<E>,
    plan: &NumberedPlan<'_>,
) -> Result<(State, bool), AllocError>
    requires prepared { IsPrepared E.ready layered.now stepper.old }
    requires start { IsStart layered.now plan.now.start.now }
    ensures prepared { IsPrepared E.ready layered.now stepper.new }
    ensures state { IfOk result (λ found. LeadsAsFar layered.now
        (start_of layered.now plan.now.start.now) plan.now.operators.now found.0 found.1) }
{
    let mut state = starting_state(alloc, layered, stepper, plan.start)?;
    match make_steps(layered, stepper, plan, &mut state, &mut NotesNothing) {
        None => Ok((state, true)),
        Some(_) => Ok((state, false)),
    }
}
