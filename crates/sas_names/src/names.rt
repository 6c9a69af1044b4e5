// The operators of a task by their names.
ghost use Rattle.std.specs.Prelude.{◌≡◌, ◌+◌, ◌<◌, ℕ, [], length, slice_index, slice_index_or, unwrap_or, IfOk, OnOk};
ghost use Rattle.sas_core.specs.declared.parts.Parts.{Parts};
ghost use Rattle.sas_names.specs.NameTable.{AreNames, AreNamesFrom, likely_of};
ghost use Rattle.sas_names.specs.Names.{AreFirsts, IsNextNamed, existing};
ghost use Rattle.sas_names.specs.Chains.{IsChain};

use crate::name_table::NameTable;
use sas_core::{Grounded, Stepwise};
use std::alloc::{AllocError, Global};

/// The operators of a task by their names. It borrows nothing from the task, so it can be stored beside it, and copies no name that is
/// found by its digest.
pub struct Names {
    /// The lowest operator of each name.
    first: NameTable<u32>,
    /// The next operator of the same name, for each operator.
    next: Vec<Option<u32>>,
}

impl Drop for Names {
    fn drop(self) {
        let Names { first, next } = self;
        drop(first);
        drop(next);
    }
}

impl Names {
    /// Finds the names of the task's operators. Visits the operators from last to first, so the lowest operator of a name is stored last.
    pub fn new<T: Grounded>(alloc: Global, task: &T) -> Result<Names, AllocError>
        ensures { IfOk result (λ names. AreNames (T.says task.now) names) }
    {
        let mut operator = task.operators();
        let next = vec![in alloc; None; operator as usize]?;
        let first = NameTable::new(alloc, operator as usize)?;
        let mut names = Names { first, next };
        while operator > 0 {
            operator -= 1;
            names.add(alloc, task, operator)?;
        }
        Ok(names)
    }

    /// Adds an operator. All higher operators have been added already.
    fn add<T: Grounded>(&mut self, alloc: Global, task: &T, operator: u32) -> Result<(), AllocError>
        requires exists { operator < length (T.says task.now).operators }
        requires behind { AreNamesFrom (T.says task.now) (operator + 1) self.old }
        ensures { OnOk result (AreNamesFrom (T.says task.now) operator self.new) }
    {
        self.next[operator as usize] = self.first.put(alloc, task, operator)?;
        Ok(())
    }

    /// Returns the lowest operator of this name, or `None` if no operator has it. `task` is the task of these names.
    pub fn first<T: Grounded>(&self, task: &T, name: &[u8]) -> Option<u32>
        requires { AreNames (T.says task.now) self.now }
        ensures { IsNextNamed (T.says task.now) name.now 0 result }
    {
        self.first.get(task, name)
    }

    /// Returns the lowest operator of the name of each step. A number that no operator has stands for none, since an `Option` takes twice
    /// the memory. `task` is the task of these names. No operator's name is read before all digests are looked up: both read memory in
    /// random order, and the processor waits for several reads at once only if they follow each other directly.
    pub fn first_operators<T: Grounded, P: Stepwise>(
        &self,
        alloc: Global,
        task: &T,
        plan: &P,
    ) -> Result<Vec<u32>, AllocError>
        requires { AreNames (T.says task.now) self.now }
        ensures { IfOk result (λ firsts.
            AreFirsts (T.says task.now) (P.says plan.now).steps firsts.items) }
    {
        let none = task.operators();
        let mut firsts = self.likely_operators(alloc, plan, none)?;
        for step in 0..firsts.len() {
            let likely = firsts[step];
            let name = plan.step(step);
            if likely < none && task.name(likely) != name {
                firsts[step] = self.first(task, name).unwrap_or(none);
            }
        }
        Ok(firsts)
    }

    /// Returns the likely operator of the name of each step, or `none`: the lowest operator of the name, if it has the name.
    fn likely_operators<P: Stepwise>(
        &self,
        alloc: Global,
        plan: &P,
        none: u32,
    ) -> Result<Vec<u32>, AllocError>
        ensures one_each { IfOk result (λ likely.
            length likely.items ≡ length (P.says plan.now).steps) }
        ensures each { IfOk result (λ likely. (step : ℕ) → step < length (P.says plan.now).steps
            → slice_index likely.items step ≡ unwrap_or
            (likely_of self.now.first (slice_index_or (P.says plan.now).steps step [])) none) }
    {
        let mut likely = Vec::with_capacity(alloc, plan.steps())?;
        for step in 0..plan.steps() {
            let operator = self.first.likely(plan.step(step)).unwrap_or(none);
            likely.push(operator).unwrap();
        }
        Ok(likely)
    }

    /// Returns, for each operator, the next one of the same name.
    pub fn next(&self) -> &[Option<u32>]
        ensures { (p : Parts) → AreNames p self.now → (first : ℕ) → IsChain p first result.now }
    {
        self.next.as_slice()
    }

    /// Returns, for each operator, the next one of the same name. Drops everything else.
    pub fn into_next(self) -> Vec<Option<u32>>
        ensures { (p : Parts) → AreNames p self → (first : ℕ) → IsChain p first result.items }
    {
        let Names { next, first: _ } = self;
        next
    }
}

/// Returns the operator with this number, or `None` if no operator has it.
pub fn existing<T: Grounded>(task: &T, number: u32) -> Option<u32>
    ensures { result ≡ existing (T.says task.now) number }
{
    (number < task.operators()).then_some(number)
}
