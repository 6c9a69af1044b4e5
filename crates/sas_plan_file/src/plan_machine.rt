// Accepts the lines of a plan file, one after another.
ghost use Rattle.std.specs.Prelude.{◌≡◌, [], OnOk, IfErr};
ghost use Rattle.std.specs.List.{AllByRecursion};

use crate::name_list::NameList;
use crate::plan_line::{PlanLine, plan_line, step_ahead};
use sas_core::{CostKind, Items, Plan};
use sas_flat::{FlatPlan, Lists};
use sas_reader::{Front, Kind, LineEnd, Machine};
use std::alloc::Global;
use std::marker::Model;

/// The steps so far, and the cost if its line has been read.
#[derive(Drop)]
pub struct PlanMachine<S: NameList = Items<Items<u8>>> {
    alloc: Global,
    steps: S,
    cost: Option<(u64, CostKind)>,
}

impl<S: NameList> Model for PlanMachine<S> {
    ghost use Rattle.std.specs.List.{AllByRecursion};
    ghost use Rattle.sas_core.specs.Names.{IsName};
    ghost use Rattle.sas_plan_file.specs.PlanMachine.{PlanState, plan_state};

    ghost Value = { PlanState };

    ghost view = { λ m. plan_state (S.names m.steps) m.cost };

    ghost invariant = { λ m. AllByRecursion IsName (S.names m.steps) };
}

impl<S: NameList> PlanMachine<S> {
    ghost use Rattle.sas_core.specs.Names.{IsName};
    ghost use Rattle.sas_plan_file.specs.PlanMachine.{closed, plan_start, HasCostLine, StepsOn};

    /// Returns a machine that has accepted no line. `steps` is empty.
    fn of_none(alloc: Global, steps: S) -> Self
        requires { S.names steps ≡ [] }
        ensures { result ≡ plan_start }
    {
        PlanMachine {
            alloc,
            steps,
            cost: None,
        }
    }

    /// Appends a step.
    #[inline(always)]
    fn add_step(&mut self, name: &[u8]) -> Result<(), Kind>
        requires open_still { HasCostLine self.old → ⊥ }
        requires name { IsName name.now }
        ensures ok { OnOk result (StepsOn self.old name.now self.new) }
        ensures err { IfErr result (λ k. k ≡ Kind.Memory) }
    {
        self.steps.add(self.alloc, name)?;
        Ok(())
    }

    /// Returns the steps, the cost and its kind after all lines have been read.
    fn into_parts(self) -> (S, u64, CostKind)
        requires { HasCostLine self }
        ensures names { AllByRecursion IsName (S.names result.0) }
        ensures parts { self ≡ closed
            (record { steps = S.names result.0; cost = result.1; kind = result.2 }) }
    {
        let PlanMachine { steps, cost, .. } = self;
        match cost {
            Some((cost, kind)) => (steps, cost, kind),
            None => unreachable!(),
        }
    }
}

impl PlanMachine<Items<Items<u8>>> {
    ghost use Rattle.sas_plan_file.specs.PlanMachine.{closed, plan_start, HasCostLine};

    /// Returns a machine that has accepted no line.
    pub fn new(alloc: Global) -> Self
        ensures { result ≡ plan_start }
    {
        PlanMachine::of_none(alloc, Items::new(alloc))
    }

    /// Returns the plan after all its lines have been read.
    pub fn into_plan(self) -> Plan
        requires { HasCostLine self }
        ensures { self ≡ closed result }
    {
        let (steps, cost, kind) = self.into_parts();
        Plan::of_names(steps, cost, kind)
    }
}

impl PlanMachine<Lists<u8>> {
    ghost use Rattle.sas_plan_file.specs.PlanMachine.{closed, plan_start, HasCostLine};

    /// Returns a machine that has accepted no line and stores all names in one block of memory.
    pub fn new_flat(alloc: Global) -> Self
        ensures { result ≡ plan_start }
    {
        PlanMachine::of_none(alloc, Lists::new(alloc))
    }

    /// Returns the plan after all its lines have been read.
    pub fn into_flat_plan(self) -> FlatPlan
        requires { HasCostLine self }
        ensures { self ≡ closed result }
    {
        let (steps, cost, kind) = self.into_parts();
        FlatPlan::of_names(steps, cost, kind)
    }
}

impl<S: NameList> Machine for PlanMachine<S> {
    ghost use Rattle.sas_plan_file.specs.PlanMachine.{plan_behavior};

    ghost behavior = { plan_behavior };

    fn has_ended(&self) -> bool {
        self.cost.is_some()
    }

    #[tactic(auto, using(crate::proofs::PlanSteps::next_lines))]
    fn accept(&mut self, line: &[u8], _number: u64) -> Result<(), Kind> {
        match plan_line(line)? {
            PlanLine::Cost(cost, kind) => {
                self.cost = Some((cost, kind));
                Ok(())
            }
            PlanLine::Step(name) => self.add_step(name),
        }
    }

    fn accept_ahead<E: LineEnd>(&mut self, bytes: &[u8]) -> Result<Front, Kind> {
        let mut lines = 0;
        let mut rest = bytes;
        while let Some((name, behind)) = step_ahead::<E>(rest) {
            self.add_step(name)?;
            lines += 1;
            rest = behind;
        }
        Ok(Front {
            lines,
            bytes: bytes.len() - rest.len(),
        })
    }
}
