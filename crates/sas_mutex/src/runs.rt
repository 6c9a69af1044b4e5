// The runs of a group: consecutive facts on the same variable.
ghost use Rattle.std.specs.Prelude.{◌≡◌, ◌<◌, ◌≤◌, ◌^◌, length, take, All, IfOk, slice_index_or};
ghost use Rattle.sas_core.specs.declared.parts.Fact.{Fact};
ghost use Rattle.sas_mutex.specs.Distinct.{AreOwnLists};
ghost use Rattle.sas_mutex.specs.Runs.{AreRuns, AreRunsOf};

use crate::distinct::facts_of;
use sas_core::{Fact, Grounded, Items};
use sas_flat::Lists;
use sas_meaning::Layered;
use std::alloc::{AllocError, Global};

/// Returns for each group of the task the lengths of its runs, which are consecutive facts on the same variable. `own` are the groups' own
/// lists.
pub fn runs_of_groups<T: Grounded>(
    alloc: Global,
    layered: &Layered<T>,
    own: &Lists<Fact>,
) -> Result<Items<Items<u32>>, AllocError>
    requires { AreOwnLists layered.now own.now }
    ensures { IfOk result (λ runs. AreRunsOf layered.now own.now runs) }
{
    let task = layered.task();
    let mut runs = Items::from_vec(Vec::with_capacity(alloc, task.groups() as usize)?);
    for group in 0..task.groups() {
        runs.push(runs_in(alloc, facts_of(layered, own, group))?)?;
    }
    Ok(runs)
}

/// Returns the lengths of the runs of these facts.
fn runs_in(alloc: Global, facts: &[Fact]) -> Result<Items<u32>, AllocError>
    requires { length facts.now < 2 ^ 31 }
    ensures { IfOk result (λ runs. AreRuns facts.now runs) }
{
    let mut runs = Items::new(alloc);
    let mut left = facts;
    while let Some(first) = left.first() {
        let (run, rest) = left.split_at(run_length(left, first.var));
        runs.push(run.len() as u32)?;
        left = rest;
    }
    Ok(runs)
}

/// Returns the number of facts at the start that are on the variable.
fn run_length(facts: &[Fact], var: u32) -> usize
    ensures within { result ≤ length facts.now }
    ensures on_it { All (λ (f : Fact). f.var ≡ var) (take result facts.now) }
    ensures some { (d : Fact) → 0 < length facts.now
        → (slice_index_or facts.now 0 d).var ≡ var → 0 < result }
{
    for (place, fact) in facts.iter().enumerate() {
        if fact.var != var {
            return place;
        }
    }
    facts.len()
}
