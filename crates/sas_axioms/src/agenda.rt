// The rules that an update of a settled state still has to evaluate.
ghost use Rattle.std.specs.Prelude.{◌≡◌, ◌+◌, ◌≤◌, ◌∷◌, ◌++◌, [], IfOk, OnOk, IfSome, OnSome, IfNone};
ghost use Rattle.std.specs.BinaryHeap.{heap_items};
ghost use Rattle.sas_axioms.specs.Agenda.{IsEmpty, IsOrdered, NoLowerLayer, AreBehind, Lowest, AddsToAgenda, RemovesFromAgenda, IsMadeReady, work_left};

use crate::layer_rules::LayerRule;
use std::alloc::{AllocError, Global};
use std::cmp::Reverse;
use std::collections::BinaryHeap;

/// The update would take longer than settling the state from scratch.
#[derive(Clone, Copy)]
pub struct OverBudget;

/// The rules that an update still has to evaluate, layer by layer, and how much work it may still do.
#[derive(Drop)]
pub struct Agenda {
    /// The noted rules. Each began to hold or ceased to hold, and hasn't been evaluated since. (A rule holds if all its conditions are
    /// true.) Rules of the lowest layer come first.
    pub noted: BinaryHeap<Reverse<LayerRule>>,
    /// The ready rules. They are on the current layer, and are evaluated after its variables have been reset.
    pub ready: Vec<u32>,
    /// How many list entries the update may still process. Noting a rule counts as `NOTING` entries.
    pub left: usize,
    /// How many list entries each update may process.
    pub share: usize,
    /// How many of the next states are settled from scratch, without trying an update.
    pub passes: usize,
    /// What `passes` is set to when the next update fails.
    pub next_passes: usize,
}

/// Noting a rule, removing it and setting its variable takes about as long as updating this many counters.
const NOTING: usize = 8;

/// At most this many states are settled from scratch before the next try.
const MOST_PASSES: usize = 64;

impl Agenda {
    /// Returns an empty agenda. Each update may process `share` list entries. Allocates all memory that it will need.
    pub fn new(alloc: Global, share: usize) -> Result<Agenda, AllocError>
        ensures { IfOk result IsEmpty }
    {
        Ok(Agenda {
            noted: BinaryHeap::with_capacity(alloc, share / NOTING)?,
            ready: Vec::with_capacity(alloc, share)?,
            left: 0,
            share,
            passes: 0,
            next_passes: 1,
        })
    }

    /// Empties the agenda for the next update, which may process `share` list entries. While updates are suspended, it may process none, so
    /// that it succeeds only if there is nothing to do.
    pub fn begin(&mut self)
        ensures { IsEmpty self.new }
    {
        self.noted.clear();
        self.ready.clear();
        self.left = if self.passes == 0 { self.share } else { 0 };
    }

    /// Records whether an update succeeded. After a failure, updates are suspended for some states: twice as many after each failure in a
    /// row. So failures take little of the time. An update that had nothing to do doesn't count.
    pub fn end(&mut self, tried: Result<(), OverBudget>) {
        if self.passes > 0 {
            if tried.is_err() {
                self.passes -= 1;
            }
        } else if tried.is_err() {
            self.passes = self.next_passes;
            self.next_passes = MOST_PASSES.min(self.next_passes.saturating_mul(2));
        } else if self.left < self.share {
            self.next_passes = 1;
        }
    }

    /// Takes `entries` from the work that is left. If less is left, returns an error and changes nothing.
    pub fn pay(&mut self, entries: usize) -> Result<(), OverBudget>
        ensures noted { self.new.noted ≡ self.old.noted }
        ensures ready { self.new.ready ≡ self.old.ready }
        ensures left { OnOk result (self.new.left + entries ≡ self.old.left) }
    {
        if entries > self.left {
            return Err(OverBudget);
        }
        self.left -= entries;
        Ok(())
    }

    /// Notes the rule, and takes the work for it from what is left. Returns an error if too little work or room is left.
    pub fn note(&mut self, entry: LayerRule) -> Result<(), OverBudget>
        requires { IsOrdered self.old }
        ensures { OnOk result (AddsToAgenda entry.layer entry.rule self.old self.new) }
    {
        if self.noted.len() == self.noted.capacity() {
            return Err(OverBudget);
        }
        self.pay(NOTING)?;
        match self.noted.push(Reverse(entry)) {
            Ok(()) => Ok(()),
            Err(_) => Err(OverBudget),
        }
    }

    /// Returns the lowest layer with a noted rule, or `None` if no rule is noted.
    pub fn lowest(&self) -> Option<u32>
        requires { IsOrdered self.now }
        ensures some { IfSome result (λ layer. Lowest self.now layer) }
        ensures none { IfNone result (heap_items self.now.noted ≡ []) }
    {
        Some(self.noted.peek()?.0.layer)
    }

    /// Removes a noted rule of this layer and returns it, or `None` if there is none. Lower layers must have no noted rules.
    pub fn take(&mut self, layer: u32) -> Option<u32>
        requires ordered { IsOrdered self.old }
        requires lowest { NoLowerLayer layer self.old }
        ensures some { IfSome result (λ rule. RemovesFromAgenda layer rule self.old self.new) }
        ensures left { OnSome result (work_left self.new + 2 ≤ work_left self.old) }
        ensures none { IfNone result (AreBehind layer self.new) }
        ensures same { IfNone result (self.new ≡ self.old) }
    {
        if self.lowest() != Some(layer) {
            return None;
        }
        let first = self.noted.pop()?;
        Some(first.0.rule)
    }

    /// Removes a ready or noted rule of this layer and returns it, or `None` if there is none. Lower layers must have no noted rules.
    pub fn next(&mut self, layer: u32) -> Option<u32>
        requires ordered { IsOrdered self.old }
        requires lowest { NoLowerLayer layer self.old }
        ensures some { IfSome result (λ rule. RemovesFromAgenda layer rule self.old self.new) }
        ensures none { IfNone result (AreBehind layer self.new) }
        ensures empty { IfNone result (self.new.ready.items ≡ []) }
        ensures same { IfNone result (self.new ≡ self.old) }
    {
        if self.ready.is_empty() {
            return self.take(layer);
        }
        match self.ready.pop() {
            Some(rule) => Some(rule),
            None => None,
        }
    }

    /// Makes the rule ready. Returns an error if there is no room.
    pub fn make_ready(&mut self, rule: u32) -> Result<(), OverBudget>
        ensures { OnOk result (IsMadeReady rule self.old self.new) }
    {
        push_within(&mut self.ready, rule)
    }
}

/// Adds the entry to the list. Returns an error if there is no room.
pub fn push_within(list: &mut Vec<u32>, entry: u32) -> Result<(), OverBudget>
    ensures { OnOk result (list.new.items ≡ list.old.items ++ entry ∷ []) }
{
    if list.len() == list.capacity() {
        return Err(OverBudget);
    }
    match list.push(entry) {
        Ok(()) => Ok(()),
        Err(_) => Err(OverBudget),
    }
}
