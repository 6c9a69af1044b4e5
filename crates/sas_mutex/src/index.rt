// The index of the groups of a task.
ghost use Rattle.std.specs.Prelude.{◌≡◌, ℕ, ◌<◌, ◌↔◌, [], length, IsTrue, IfOk, OnOk, Contains};
ghost use Rattle.std.specs.List.Sorted.{IsNonDecreasing};
ghost use Rattle.sas_mutex.specs.Distinct.{facts_at};
ghost use Rattle.sas_mutex.specs.ByFact.{under, fact_number, AreLow, AreFirstNumbers, facts_below};

use crate::by_fact::{groups_by_fact, larger_of_each};
use crate::by_variable::effects_by_variable;
use crate::distinct::{facts_of, own_lists};
use crate::runs::runs_of_groups;
use sas_core::{Fact, Grounded, Items};
use sas_flat::Lists;
use sas_meaning::Layered;
use std::alloc::{AllocError, Global};

/// At most this many groups are searched one by one, which is faster than a binary search.
const LINEAR_LIMIT: usize = 4;

/// The groups that contain each fact, and the effects of large operators on each variable. Facts are numbered, variable by variable, so a
/// lookup takes constant time.
#[derive(Drop)]
pub struct Index {
    /// For each variable, the number of its first fact.
    pub firsts: Vec<usize>,
    /// For each fact, by its number, the groups that contain it.
    pub groups: Lists<u32>,
    /// The same without the groups of one fact, or `None` if there are none. No operator can break such a group.
    pub larger: Option<Lists<u32>>,
    /// For each group, its facts in ascending order without duplicates. The list is empty or missing if the list in the task already is in
    /// that form.
    pub own_facts: Lists<Fact>,
    /// For each group, the lengths of its runs. A run is a sequence of consecutive facts on the same variable.
    pub runs: Items<Items<u32>>,
    /// The effects of large operators, by the hash of operator and variable.
    pub effects: Lists<u32>,
    ghost low: { AreLow firsts.items },
    ghost ascending: { (key : ℕ) → IsNonDecreasing (under groups key) },
}

impl Index {
    ghost use Rattle.sas_mutex.specs.Index as spec;
    ghost use Rattle.sas_mutex.specs.Index.{IsIndexOf};

    /// Returns the index of the task.
    pub fn new<T: Grounded>(alloc: Global, task: &Layered<T>) -> Result<Index, AllocError>
        ensures { IfOk result (λ index. IsIndexOf task.now index) }
    {
        let mut firsts = Vec::with_capacity(alloc, task.variables() as usize)?;
        let facts = number_facts(task, &mut firsts)?;
        let own_facts = own_lists(alloc, task)?;
        let groups = groups_by_fact(alloc, task, &own_facts, firsts.as_slice(), facts)?;
        let larger = larger_of_each(alloc, task, &own_facts, &groups)?;
        let effects = effects_by_variable(alloc, task)?;
        let runs = runs_of_groups(alloc, task, &own_facts)?;
        Ok(Index {
            firsts,
            groups,
            larger,
            own_facts,
            runs,
            effects,
        })
    }

    /// Returns the groups that contain the fact.
    #[inline(always)]
    pub fn groups_of(&self, fact: Fact) -> &[u32]
        ensures { result.now ≡ spec.groups_of self.now fact }
    {
        under(&self.groups, self.number_of(fact))
    }

    /// Returns the groups that contain the fact and another one.
    #[inline(always)]
    pub fn larger_groups_of(&self, fact: Fact) -> &[u32]
        ensures { result.now ≡ spec.larger_groups_of self.now fact }
    {
        let lists = match &self.larger {
            Some(larger) => larger,
            None => &self.groups,
        };
        under(lists, self.number_of(fact))
    }

    /// Returns the facts of the group without duplicates.
    pub fn facts_of<'a, T: Grounded>(&'a self, task: &'a Layered<T>, group: u32) -> &'a [Fact]
        requires { group < length task.now.groups }
        ensures { result.now ≡ facts_at task.now self.now.own_facts group }
    {
        facts_of(task, &self.own_facts, group)
    }

    /// Returns whether the group contains the fact.
    #[inline(always)]
    pub fn has(&self, group: u32, fact: Fact) -> bool
        ensures { IsTrue result ↔ Contains (spec.groups_of self.now fact) group }
    {
        let groups = self.groups_of(fact);
        if groups.len() <= LINEAR_LIMIT {
            is_among(groups, group)
        } else {
            groups.binary_search(&group).is_ok()
        }
    }

    /// Returns the number of the fact. If the variable doesn't exist, its first number is taken as 0.
    #[inline(always)]
    fn number_of(&self, fact: Fact) -> usize
        ensures { result ≡ fact_number self.now.firsts.items fact }
    {
        let first = match self.firsts.as_slice().get(fact.var as usize) {
            Some(first) => *first,
            None => 0,
        };
        first + fact.value as usize
    }
}

/// Appends the number of each variable's first fact to the empty list, and returns the number of all facts.
fn number_facts<T: Grounded>(
    task: &Layered<T>,
    firsts: &mut Vec<usize>,
) -> Result<usize, AllocError>
    requires empty { firsts.old.items ≡ [] }
    ensures firsts { OnOk result (AreFirstNumbers task.now firsts.new.items) }
    ensures low { OnOk result (AreLow firsts.new.items) }
    ensures all { IfOk result
        (λ facts. facts ≡ facts_below task.now (length task.now.variables)) }
{
    let mut facts = 0;
    for var in 0..task.variables() {
        firsts.push(facts)?;
        facts += task.range(var) as usize;
    }
    Ok(facts)
}

/// Returns whether the group is one of these. A linear search, which is inlined.
#[inline(always)]
fn is_among(groups: &[u32], group: u32) -> bool
    ensures { IsTrue result ↔ Contains groups.now group }
{
    groups.iter().any(|other| *other == group)
}

/// Returns the list with this key; past the last list, the empty list.
#[inline(always)]
pub fn under(lists: &Lists<u32>, key: usize) -> &[u32]
    ensures { result.now ≡ under lists.now key }
{
    if key < lists.len() {
        lists.get(key)
    } else {
        &[]
    }
}
