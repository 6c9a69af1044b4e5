// Long chains: many operators of one name. A step tries only those that require its state's value of one variable, or none of it.
ghost use Rattle.std.specs.Prelude.{◌≡◌, ◌<◌, length, None, IfOk, OnOk};
ghost use Rattle.sas_core.specs.Grounded.{operator_at};
ghost use Rattle.sas_core.specs.Variables.{IsState};
ghost use Rattle.sas_names.specs.Chains.{IsChain, HaveChains};
ghost use Rattle.sas_names.specs.NameTable.{AreNames};
ghost use Rattle.sas_run.specs.LongChains.{AreEither, AreLongChains, BeginsLower, IsLongChain, IsPushed, Requires, operators_with};
ghost use Rattle.sas_run.specs.Plans.{IsApplicable};
ghost use Rattle.sas_run.specs.Running.{IsFirstChosen};

use crate::choice::{is_applicable, later_applicable};
use sas_core::Grounded;
use sas_meaning::{Layered, Preconditions, State};
use sas_names::{Names, existing, next_in};
use std::alloc::{AllocError, Global};
use std::collections::BTreeMap;
use std::iter::successors;

/// A chain of up to this many operators isn't long.
const SHORT: usize = 8;

/// The operators of one name, by the value that they require of one variable, if any. Each list ascends.
#[derive(Drop)]
pub struct LongChain {
    var: u32,
    by_value: BTreeMap<Option<u32>, Vec<u32>>,
}

impl LongChain {
    /// Collects the operators from this one on.
    fn new<T: Grounded>(
        alloc: Global,
        layered: &Layered<T>,
        first: u32,
        nexts: &[Option<u32>],
    ) -> Result<LongChain, AllocError>
        requires variables { 0 < length layered.now.variables }
        requires chain { IsChain layered.now first nexts.now }
        requires first { first < length layered.now.operators }
        ensures { IfOk result (λ chain. IsLongChain layered.now first chain None) }
    {
        let var = splitting_variable(alloc, layered, first, nexts)?;
        let by_value = BTreeMap::new(alloc);
        let mut chain = LongChain { var, by_value };
        let mut next = Some(first);
        while let Some(operator) = next {
            chain.push(alloc, required_value(layered, operator, var), operator)?;
            next = next_in(nexts, operator);
        }
        Ok(chain)
    }

    /// Adds an operator that requires this value, or none.
    fn push(&mut self, alloc: Global, value: Option<u32>, operator: u32) -> Result<(), AllocError>
        ensures { OnOk result (IsPushed self.old value operator self.new) }
    {
        let none = Vec::new(alloc);
        let mut operators = self.by_value.remove(&value).unwrap_or(none);
        operators.push(operator)?;
        self.by_value.insert(value, operators)?;
        Ok(())
    }

    /// Returns the operators that require this value, or none.
    fn with(&self, value: Option<u32>) -> &[u32]
        ensures { result.now ≡ operators_with self.now value }
    {
        match self.by_value.get(&value) {
            Some(operators) => operators.as_slice(),
            None => &[],
        }
    }
}

/// The long chains among those of some operators, each by its first operator.
#[derive(Drop)]
pub struct LongChains {
    chains: BTreeMap<u32, LongChain>,
}

impl LongChains {
    /// Collects the long chains that begin with one of these operators.
    pub fn new<T: Grounded>(
        alloc: Global,
        layered: &Layered<T>,
        firsts: &[u32],
        nexts: &[Option<u32>],
    ) -> Result<LongChains, AllocError>
        requires { HaveChains layered.now firsts.now nexts.now }
        ensures { IfOk result (AreLongChains layered.now) }
    {
        let chains = BTreeMap::new(alloc);
        let mut long = LongChains { chains };
        if !nexts.iter().any(|next| next.is_some()) {
            return Ok(long);
        }
        for first in firsts {
            if let Some(first) = existing(layered, *first) {
                long.add(alloc, layered, first, nexts)?;
            }
        }
        Ok(long)
    }

    /// Collects the long chains of the task, whose operators have these names.
    pub fn of_task<T: Grounded>(
        alloc: Global,
        layered: &Layered<T>,
        names: &Names,
    ) -> Result<LongChains, AllocError>
        requires { AreNames layered.now names.now }
        ensures { IfOk result (AreLongChains layered.now) }
    {
        let chains = BTreeMap::new(alloc);
        let mut long = LongChains { chains };
        for first in 0..layered.operators() {
            if is_long(names.next(), first)
                && names.first(layered, layered.name(first)) == Some(first)
            {
                long.add(alloc, layered, first, names.next())?;
            }
        }
        Ok(long)
    }

    /// Collects the chain that begins with this operator, if it is long.
    fn add<T: Grounded>(
        &mut self,
        alloc: Global,
        layered: &Layered<T>,
        first: u32,
        nexts: &[Option<u32>],
    ) -> Result<(), AllocError>
        requires chain { IsChain layered.now first nexts.now }
        requires first { first < length layered.now.operators }
        requires chains { AreLongChains layered.now self.old }
        ensures { OnOk result (AreLongChains layered.now self.new) }
    {
        if is_long(nexts, first)
            && layered.task().variables() > 0
            && !self.chains.contains_key(&first)
        {
            let chain = LongChain::new(alloc, layered, first, nexts)?;
            self.chains.insert(first, chain)?;
        }
        Ok(())
    }

    /// Returns the first applicable operator, among this one and the later ones of the same name. `nexts` has, for each of them, the next
    /// one.
    pub fn first_applicable<T: Grounded>(
        &self,
        task: &Layered<T>,
        nexts: &[Option<u32>],
        state: &State,
        first: u32,
    ) -> Option<u32>
        requires long { AreLongChains task.now self.now }
        requires chain { IsChain task.now first nexts.now }
        requires first { first < length task.now.operators }
        requires state { IsState task.now.variables state.now }
        ensures { IsFirstChosen task.now state.now first result }
    {
        if is_applicable(task, state, first) {
            return Some(first);
        }
        self.later_applicable(task, nexts, state, first)
    }

    /// Does the same, if the first operator isn't applicable. It isn't inlined, since most steps need only the first operator of their name.
    #[inline(never)]
    pub fn later_applicable<T: Grounded>(
        &self,
        task: &Layered<T>,
        nexts: &[Option<u32>],
        state: &State,
        first: u32,
    ) -> Option<u32>
        requires long { AreLongChains task.now self.now }
        requires chain { IsChain task.now first nexts.now }
        requires first { first < length task.now.operators }
        requires state { IsState task.now.variables state.now }
        requires not_first { IsApplicable state.now (operator_at task.now first) → ⊥ }
        ensures { IsFirstChosen task.now state.now first result }
    {
        let Some(chain) = self.chains.get(&first) else {
            return later_applicable(task, nexts, state, first);
        };
        let same = chain.with(Some(state.value(chain.var)));
        let mut lists = lower_first(same, chain.with(None));
        while let Some((next, rest)) = lists.0.split_first() {
            if is_applicable(task, state, *next) {
                return Some(*next);
            }
            lists = lower_first(rest, lists.1);
        }
        None
    }
}

/// Returns the two lists, first the one that begins with the lower operator.
fn lower_first<'a>(a: &'a [u32], b: &'a [u32]) -> (&'a [u32], &'a [u32])
    ensures lists { AreEither a.now b.now result.0.now result.1.now }
    ensures lower { BeginsLower result.0.now result.1.now }
{
    match (a.first(), b.first()) {
        (Some(low), Some(high)) if low <= high => (a, b),
        (Some(_), None) => (a, b),
        _ => (b, a),
    }
}

/// Returns whether the chain that begins with this operator is long.
fn is_long(nexts: &[Option<u32>], first: u32) -> bool {
    successors(Some(first), |operator| next_in(nexts, *operator))
        .nth(SHORT)
        .is_some()
}

/// Returns the variable of which the operators of a chain require the most values.
fn splitting_variable<T: Grounded>(
    alloc: Global,
    layered: &Layered<T>,
    first: u32,
    nexts: &[Option<u32>],
) -> Result<u32, AllocError>
    requires variables { 0 < length layered.now.variables }
    requires chain { IsChain layered.now first nexts.now }
    requires first { first < length layered.now.operators }
    ensures { IfOk result (λ var. var < length layered.now.variables) }
{
    let task = layered.task();
    let mut facts = Vec::new(alloc);
    let mut next = Some(first);
    while let Some(operator) = next {
        facts.extend(Preconditions::new(task, operator))?;
        next = next_in(nexts, operator);
    }
    facts.sort_unstable();
    facts.dedup();
    let most = facts
        .chunk_by(|fact, other| fact.var == other.var)
        .max_by_key(|facts| facts.len());
    let var = most
        .and_then(|facts| facts.first())
        .map_or(0, |fact| fact.var);
    Ok(var.min(task.variables() - 1))
}

/// Returns the value that the operator requires of the variable, if any.
fn required_value<T: Grounded>(layered: &Layered<T>, operator: u32, var: u32) -> Option<u32>
    requires { operator < length layered.now.operators }
    ensures { Requires (operator_at layered.now operator) var result }
{
    let fact = Preconditions::new(layered.task(), operator).find(|fact| fact.var == var)?;
    Some(fact.value)
}
