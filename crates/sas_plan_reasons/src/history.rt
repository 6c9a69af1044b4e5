// What is noted of a plan as its steps are made once more.
ghost use Rattle.std.specs.Prelude.{◌≡◌, ◌<◌, ℕ, List, length, IfOk, [], None};
ghost use Rattle.sas_core.specs.Variables.{IsState};
ghost use Rattle.sas_core.specs.Grounded.{operator_at};
ghost use Rattle.sas_meaning.specs.Settled.{Settles};
ghost use Rattle.sas_names.specs.Chains.{IsChain};
ghost use Rattle.sas_plan_reasons.specs.Noting.{AddsOther, HasNoted};

use crate::changes::Changes;
use crate::listing::Listing;
use crate::nameless::NamelessSteps;
use sas_core::Grounded;
use sas_meaning::{Layered, State};
use sas_run::{Anyway, Observer, PlanFault, later_applicable};
use std::alloc::{AllocError, Global};

/// A step of a plan, counted from 1, and an operator that it may mean besides the one that it means.
#[derive(Clone, Copy)]
pub struct OtherOperator {
    pub step: usize,
    pub operator: u32,
}

/// How far the steps of a plan go through, and what came of them.
#[derive(Drop)]
pub struct PlanHistory {
    /// Why the plan isn't valid.
    pub fault: PlanFault,
    /// The steps that name no operator.
    pub nameless: NamelessSteps,
    /// The operators of the steps that go through.
    pub operators: Vec<u32>,
    /// The state to which these steps lead.
    pub last: State,
    /// For each variable the last step that changed its value, counted from 1; 0 where none did.
    pub since: Vec<usize>,
    /// The first of these steps that may mean another operator, and the lowest such operator.
    pub other: Option<OtherOperator>,
    /// What follows if the step that fails is made anyway, if the fault is that of a step that names an operator.
    pub anyway: Option<Anyway>,
}

/// Notes since when each variable has its value, and which other operator a step may mean.
#[derive(Drop)]
pub struct Historian<'n> {
    /// The next operator of the same name, for each operator of the names of the steps.
    nexts: &'n [Option<u32>],
    listing: Listing,
    pub changes: Changes,
    /// The first step that may mean another operator, and the lowest such operator.
    pub other: Option<OtherOperator>,
}

impl<'n> Historian<'n> {
    /// Returns a historian before the first step.
    pub fn new<T: Grounded>(
        alloc: Global,
        task: &Layered<T>,
        nexts: &'n [Option<u32>],
        state: &State,
    ) -> Result<Historian<'n>, AllocError>
        requires { IsState task.now.variables state.now }
        ensures none { IfOk result (λ h. (start : List ℕ) → Settles task.now start state.now
            → HasNoted task.now start h h []) }
        ensures nexts { IfOk result (λ h. h.nexts.now ≡ nexts.now) }
    {
        Ok(Historian {
            nexts,
            listing: Listing::new(alloc, task)?,
            changes: Changes::new(alloc, task, state)?,
            other: None,
        })
    }

    /// Notes the other operator that the next step may mean, unless one was noted. `operator` is that of the step.
    fn note_other<T: Grounded>(&mut self, task: &Layered<T>, step: usize, operator: u32)
        requires state { IsState task.now.variables self.old.changes.values }
        requires operator { operator < length task.now.operators }
        requires chain { IsChain task.now operator self.old.nexts.now }
        ensures adds { AddsOther task.now self.old.changes.values operator step
            self.old.other self.new.other }
        ensures rest { self.new ≡ record self.old { other = self.new.other } }
    {
        if self.other.is_some() {
            return;
        }
        if let Some(later) = later_applicable(task, self.nexts, &self.changes.values, operator) {
            self.other = Some(OtherOperator {
                step,
                operator: later,
            });
        }
    }

    /// Returns since when each variable has its value, and which other operator a step may mean.
    pub fn into_parts(self) -> (Vec<usize>, Option<OtherOperator>)
        ensures since { result.0 ≡ self.entry.changes.since }
        ensures other { result.1 ≡ self.entry.other }
    {
        let Historian {
            nexts: _,
            listing: _,
            changes,
            other,
        } = self;
        (changes.since, other)
    }
}

impl<'n, T: Grounded> Observer<T> for Historian<'n> {
    ghost admits = { λ h p step operator. (operator < length p.operators)
        × IsChain p operator h.nexts.now };

    ghost sees = { HasNoted };

    #[inline(always)]
    fn observe(
        &mut self,
        task: &Layered<T>,
        step: usize,
        operator: u32,
        derived: Option<&[u32]>,
        state: &State,
    ) {
        self.note_other(task, step, operator);
        self.listing
            .list(task, operator, derived, &self.changes.values, state);
        self.changes.note(step, state, self.listing.vars.as_slice());
    }
}
