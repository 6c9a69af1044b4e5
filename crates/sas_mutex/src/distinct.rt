// The facts of each group without duplicates.
ghost use Rattle.std.specs.Prelude.{◌≡◌, ◌<◌, length, IsTrue, IfOk};
ghost use Rattle.sas_mutex.specs.Distinct.{facts_at, own_or, AreDistinct, AreOwnLists, IsBelow};

use sas_core::{Fact, Grounded};
use sas_flat::Lists;
use sas_meaning::Layered;
use std::alloc::{AllocError, Global};

/// Returns the facts of the group without duplicates: its own list, if it has one, else the list in the task.
pub fn facts_of<'a, T: Grounded>(
    task: &'a Layered<T>,
    own: &'a Lists<Fact>,
    group: u32,
) -> &'a [Fact]
    requires { group < length task.now.groups }
    ensures { result.now ≡ facts_at task.now own.now group }
{
    let place = group as usize;
    if place < own.len() && !own.get(place).is_empty() {
        own.get(place)
    } else {
        task.group(group)
    }
}

/// Returns an own list for each group of the task. It is empty if the list in the task is ascending and has no duplicates. Empty lists at
/// the end are left out.
pub fn own_lists<T: Grounded>(
    alloc: Global,
    layered: &Layered<T>,
) -> Result<Lists<Fact>, AllocError>
    ensures { IfOk result (λ own. AreOwnLists layered.now own) }
{
    let task = layered.task();
    let mut own = Lists::new(alloc);
    for group in 0..task.groups() {
        let facts = own_list(alloc, task.group(group))?;
        if !facts.is_empty() {
            own.fill(group as usize)?;
            own.push(facts.as_slice())?;
        }
    }
    Ok(own)
}

/// Returns the facts in ascending order without duplicates, or no facts if `facts` is already such a list.
fn own_list(alloc: Global, facts: &[Fact]) -> Result<Vec<Fact>, AllocError>
    ensures { IfOk result (λ own. AreDistinct (own_or own.items facts.now) facts.now) }
{
    let mut own = Vec::new(alloc);
    if is_ascending(facts) {
        return Ok(own);
    }
    own.extend_from_slice(facts)?;
    own.sort()?;
    own.dedup();
    Ok(own)
}

/// Returns whether each fact is below the next one.
fn is_ascending(facts: &[Fact]) -> bool
    ensures { IsTrue result → AreDistinct facts.now facts.now }
{
    for place in 1..facts.len() {
        if !is_below(facts[place - 1], facts[place]) {
            return false;
        }
    }
    true
}

/// Returns whether the fact is below the other: on a lower variable, or on the same variable with a lower value.
fn is_below(fact: Fact, other: Fact) -> bool
    ensures { IsTrue result → IsBelow fact other }
{
    fact.var < other.var || (fact.var == other.var && fact.value < other.value)
}
