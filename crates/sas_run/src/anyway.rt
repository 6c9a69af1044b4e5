// What follows if a step that fails is made anyway.
ghost use Rattle.std.specs.Prelude.{◌≡◌, ◌^◌, ◌+◌, ◌<◌, ◌≤◌, ◌++◌, ◌∷◌, ℕ, List, [], length, IfOk, IsTrue, IsFalse, vec_capacity};
ghost use Rattle.sas_run.specs.Anyway.{AreNoted, Fails, Follows, IsBefore, MadeAnyway, Succeeds};
ghost use Rattle.sas_run.specs.Running.{StepFailsBy};
ghost use Rattle.sas_run.specs.Stepping.{IsAt};

use crate::choosers::Chooser;
use crate::executor::make_plan_step;
use crate::plan_check::PlanFault;
use crate::stepper::{Stepper, force};
use sas_core::Grounded;
use sas_meaning::{Layered, Settle, State};
use std::alloc::{AllocError, Global};

/// How many failing steps are noted.
const MOST: usize = 5;

/// What follows if a step of a plan is made, and the later ones, whether they fail or not.
#[derive(Drop)]
pub struct Anyway {
    /// The step, counted from 1.
    pub step: usize,
    /// The state to which it and the later ones lead.
    pub state: State,
    /// How many of the later ones fail.
    pub failing: usize,
    /// The first of these, counted from 1: five, or all.
    pub first: Vec<usize>,
}

impl Anyway {
    /// Starts before this step, in this state.
    pub fn new(alloc: Global, step: usize, state: State) -> Result<Anyway, AllocError>
        ensures { IfOk result (IsBefore step state) }
    {
        let first = Vec::with_capacity(alloc, MOST)?;
        Ok(Anyway {
            step,
            state,
            failing: 0,
            first,
        })
    }

    /// Notes a later step that fails.
    fn note(&mut self, step: usize)
        requires few { self.old.failing < step }
        requires room { 5 ≤ vec_capacity self.old.first }
        ensures noted { (failing : List ℕ) → AreNoted failing self.old
            → AreNoted (failing ++ step ∷ []) self.new }
        ensures rest { self.new ≡ record self.old {
          failing = self.new.failing;
          first = self.new.first;
        } }
    {
        self.failing += 1;
        if self.first.len() < MOST {
            self.first.push(step).unwrap();
        }
    }
}

/// Makes the step, and those after it. It can't allocate, since it has no allocator.
pub fn go_on_anyway<E: Settle<T> + Drop, T: Grounded, C: Chooser<T>>(
    layered: &Layered<T>,
    stepper: &mut Stepper<E>,
    chooser: &C,
    anyway: &mut Anyway,
)
    requires at { IsAt E.ready E.follows layered.now stepper.old anyway.old.state }
    requires ready { C.ready chooser.now layered.now }
    requires none { AreNoted [] anyway.old }
    requires step { 0 < anyway.old.step }
    requires exists { anyway.old.step ≤ C.count chooser.now }
    ensures at { IsAt E.ready E.follows layered.now stepper.new anyway.new.state }
    ensures step { anyway.new.step ≡ anyway.old.step }
    ensures follows { (failing : List ℕ) × AreNoted failing anyway.new
        × Follows layered.now (C.means chooser.now layered.now) (C.lowest chooser.now layered.now)
        (C.count chooser.now) anyway.old.step anyway.old.state failing anyway.new.state }
{
    let step = anyway.step;
    let steps = chooser.steps();
    make_anyway(layered, stepper, chooser, step - 1, &mut anyway.state);
    for before in step..steps {
        if make_anyway(layered, stepper, chooser, before, &mut anyway.state) {
            continue;
        }
        anyway.note(before + 1);
    }
}

/// Makes the plan's step after so many steps, whether it fails or not. Returns whether it succeeds.
fn make_anyway<E: Settle<T> + Drop, T: Grounded, C: Chooser<T>>(
    layered: &Layered<T>,
    stepper: &mut Stepper<E>,
    chooser: &C,
    before: usize,
    state: &mut State,
) -> bool
    requires at { IsAt E.ready E.follows layered.now stepper.old state.old }
    requires ready { C.ready chooser.now layered.now }
    requires exists { before < C.count chooser.now }
    requires few { C.count chooser.now < 2 ^ 64 }
    ensures at { IsAt E.ready E.follows layered.now stepper.new state.new }
    ensures made { MadeAnyway layered.now (C.means chooser.now layered.now)
        (C.lowest chooser.now layered.now) before state.old state.new }
    ensures yes { IsTrue result → Succeeds layered.now (C.means chooser.now layered.now)
        before state.old }
    ensures no { IsFalse result → Fails layered.now (C.means chooser.now layered.now)
        before state.old }
{
    match make_plan_step(layered, stepper, chooser, before, state) {
        Ok(_) => true,
        Err(fault) => {
            make_failing(layered, stepper, chooser, fault, state);
            false
        }
    }
}

/// Makes a step that fails so: of the operator that the step means, or else of the lowest that it can mean. A step that names no
/// operator is left out.
fn make_failing<E: Settle<T> + Drop, T: Grounded, C: Chooser<T>>(
    layered: &Layered<T>,
    stepper: &mut Stepper<E>,
    chooser: &C,
    fault: PlanFault,
    state: &mut State,
)
    requires at { IsAt E.ready E.follows layered.now stepper.old state.old }
    requires ready { C.ready chooser.now layered.now }
    requires fails { (before : ℕ) × (before < C.count chooser.now)
        × StepFailsBy layered.now (C.means chooser.now layered.now before state.old)
        state.old (before + 1) fault }
    ensures at { IsAt E.ready E.follows layered.now stepper.new state.new }
    ensures made { (before : ℕ)
        → StepFailsBy layered.now (C.means chooser.now layered.now before state.old)
        state.old (before + 1) fault
        → MadeAnyway layered.now (C.means chooser.now layered.now)
        (C.lowest chooser.now layered.now) before state.old state.new }
{
    match fault {
        PlanFault::NotApplicable { step } => {
            let operator = chooser.lowest(layered, step - 1);
            force(layered, stepper, operator, state);
        }
        PlanFault::Conflict { step: _, operator } => force(layered, stepper, operator, state),
        _ => (),
    }
}
