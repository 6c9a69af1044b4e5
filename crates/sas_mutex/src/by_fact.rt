// The groups that contain each fact.
ghost use Rattle.std.specs.Prelude.{◌≡◌, ◌≢◌, ℕ, ◌<◌, ◌++◌, length, IfOk, OnOk, All, IsFalse};
ghost use Rattle.sas_core.specs.declared.parts.Fact.{Fact};
ghost use Rattle.sas_mutex.specs.Distinct.{AreOwnLists, facts_at};
ghost use Rattle.sas_mutex.specs.ByFact.{AreLow, AreFirstNumbers, facts_below, AreByFact, entries_of};
ghost use Rattle.sas_mutex.specs.ByFact.{AreLarger, AreLargerOfEach};

use crate::distinct::facts_of;
use sas_core::{Fact, Grounded};
use sas_flat::{Entry, Lists};
use sas_meaning::Layered;
use std::alloc::{AllocError, Global};

/// Returns for each fact, by its number, the groups of the task that contain it, each once. `own` are the groups' own lists, `firsts` the
/// number of each variable's first fact, and `facts` the number of all facts.
pub fn groups_by_fact<T: Grounded>(
    alloc: Global,
    layered: &Layered<T>,
    own: &Lists<Fact>,
    firsts: &[usize],
    facts: usize,
) -> Result<Lists<u32>, AllocError>
    requires own { AreOwnLists layered.now own.now }
    requires firsts { AreFirstNumbers layered.now firsts.now }
    requires low { AreLow firsts.now }
    requires all { facts ≡ facts_below layered.now (length layered.now.variables) }
    ensures { IfOk result (λ groups. AreByFact layered.now firsts.now groups) }
{
    let task = layered.task();
    let mut entries = Vec::new(alloc);
    for group in 0..task.groups() {
        enter_facts(firsts, group, facts_of(layered, own, group), &mut entries)?;
    }
    Lists::by_key(alloc, entries.as_slice(), facts)
}

/// Appends an entry of the group for each of the facts; the key is the number of the fact.
fn enter_facts(
    firsts: &[usize],
    group: u32,
    facts: &[Fact],
    entries: &mut Vec<Entry<u32>>,
) -> Result<(), AllocError>
    requires known { All (λ (f : Fact). f.var < length firsts.now) facts.now }
    requires low { AreLow firsts.now }
    ensures { OnOk result
        (entries.new.items ≡ entries.old.items ++ entries_of firsts.now group facts.now) }
{
    for fact in facts {
        entries.push(Entry {
            key: firsts[fact.var as usize] + fact.value as usize,
            item: group,
        })?;
    }
    Ok(())
}

/// Returns these lists without the groups of one fact. Returns `None` if the task has no such group. `own` are the groups' own lists.
pub fn larger_of_each<T: Grounded>(
    alloc: Global,
    layered: &Layered<T>,
    own: &Lists<Fact>,
    groups: &Lists<u32>,
) -> Result<Option<Lists<u32>>, AllocError>
    ensures { IfOk result (AreLargerOfEach layered.now own.now groups.now) }
{
    if !some_has_one(layered, own) {
        return Ok(None);
    }
    let mut larger = Lists::new(alloc);
    for key in 0..groups.len() {
        let those = larger_among(alloc, layered, own, groups.get(key))?;
        larger.push(those.as_slice())?;
    }
    Ok(Some(larger))
}

/// Returns whether a group of the task has just one fact. A fact that is listed twice counts once.
fn some_has_one<T: Grounded>(layered: &Layered<T>, own: &Lists<Fact>) -> bool
    ensures { IsFalse result → (place : ℕ) → place < length layered.now.groups
        → length (facts_at layered.now own.now place) ≢ 1 }
{
    let task = layered.task();
    for group in 0..task.groups() {
        if facts_of(layered, own, group).len() == 1 {
            return true;
        }
    }
    false
}

/// Returns those of these groups that have more than one fact.
fn larger_among<T: Grounded>(
    alloc: Global,
    layered: &Layered<T>,
    own: &Lists<Fact>,
    groups: &[u32],
) -> Result<Vec<u32>, AllocError>
    ensures { IfOk result (λ larger. AreLarger layered.now own.now groups.now larger.items) }
{
    let task = layered.task();
    let mut larger = Vec::new(alloc);
    for group in groups {
        if *group < task.groups() && facts_of(layered, own, *group).len() > 1 {
            larger.push(*group)?;
        }
    }
    Ok(larger)
}
