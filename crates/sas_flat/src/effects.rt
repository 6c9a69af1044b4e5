// Effects or rules in a few blocks of memory.
ghost use Rattle.std.specs.Prelude.{◌≡◌, ◌<◌, ◌≤◌, ◌+◌, ◌*◌, [], ◌∷◌, ◌++◌, length, take, slice_range, IfSome, OnOk, OnErr};
ghost use Rattle.std.specs.List.{sum_by};
ghost use Rattle.sas_core.specs.Changes.{change_of, plain_effects};
ghost use Rattle.sas_core.specs.LineNumbers.{rule_height};
ghost use Rattle.sas_flat.specs.Effects.{effect_with, effects_of, effect_in_list};

use crate::lists::Lists;
use sas_core::{Change, Fact};
use std::alloc::{AllocError, Global};
use std::marker::Model;
use std::mem;

/// A list of effects, or of rules, which have the same form. In a contract its value is that list.
///
/// Most effects have no conditions. So `conditions` may be shorter than `changes`; the effects past its end have none.
pub struct Effects {
    changes: Vec<Change>,
    conditions: Lists<Fact>,
}

impl Drop for Effects {
    fn drop(self) {
        let Effects {
            changes,
            conditions,
        } = self;
        drop(changes);
        drop(conditions);
    }
}

impl Model for Effects {
    ghost use Rattle.std.specs.Prelude.{◌≤◌, List, length};
    ghost use Rattle.sas_core.specs.declared.parts.Effect.{Effect};
    ghost use Rattle.sas_flat.specs.Effects.{effects_of};

    ghost Value = { List Effect };

    ghost view = { λ e. effects_of e.changes.items e.conditions };

    ghost invariant = { λ e. length e.conditions ≤ length e.changes.items };
}

impl Effects {
    /// Returns an empty list of effects.
    pub fn new(alloc: Global) -> Self
        ensures { result ≡ [] }
    {
        Effects {
            changes: Vec::new(alloc),
            conditions: Lists::new(alloc),
        }
    }

    /// Returns the effects with these changes and conditions.
    pub fn of_parts(changes: Vec<Change>, conditions: Lists<Fact>) -> Self
        requires { length conditions ≤ length changes.items }
        ensures { result ≡ effects_of changes.items conditions }
    {
        Effects {
            changes,
            conditions,
        }
    }

    /// Returns the number of effects.
    pub(crate) fn len(&self) -> usize
        ensures { result ≡ length self.now }
    {
        self.changes.len()
    }

    /// Returns the change that the effect makes.
    pub(crate) fn change(&self, index: usize) -> Change
        requires { index < length self.now }
        ensures { result ≡ change_of (effect_in_list self.now index) }
    {
        self.changes.as_slice()[index]
    }

    /// Returns the conditions of the effect.
    pub(crate) fn conditions(&self, index: usize) -> &[Fact]
        requires { index < length self.now }
        ensures { result.now ≡ (effect_in_list self.now index).conditions }
    {
        if index < self.conditions.len() {
            self.conditions.get(index)
        } else {
            &[]
        }
    }

    /// Returns the number of conditions of the first `count` of these rules.
    pub(crate) fn conditions_before(&self, count: usize) -> usize
        requires { count ≤ length self.now }
        ensures { 4 * count + result ≡ sum_by rule_height (take count self.now) }
    {
        let lists = self.conditions.len();
        let with_conditions = if count < lists { count } else { lists };
        self.conditions.items_before(with_conditions)
    }

    /// Returns the changes of the effects from `start` up to but not including `end`, if neither these effects nor later ones have
    /// conditions.
    #[inline(always)]
    pub(crate) fn plain(&self, start: usize, end: usize) -> Option<&[Change]>
        requires order { start ≤ end }
        requires end { end ≤ length self.now }
        ensures { IfSome result (λ changes.
            slice_range self.now start end ≡ plain_effects changes.now) }
    {
        if start < self.conditions.len() {
            None
        } else {
            Some(&self.changes.as_slice()[start..end])
        }
    }

    /// Appends an effect. On `Err` (out of memory) the effects are unchanged.
    #[inline(always)]
    pub fn push(&mut self, conditions: &[Fact], change: Change) -> Result<(), AllocError>
        ensures ok { OnOk result (self.new ≡ self.old ++ effect_with change conditions.now ∷ []) }
        ensures err { OnErr result (self.new ≡ self.old) }
    {
        self.changes.reserve(1)?;
        if !conditions.is_empty() {
            self.conditions.fill(self.changes.len())?;
            self.conditions.push(conditions)?;
        }
        self.changes.push(change)?;
        Ok(())
    }

    /// Appends all effects of `more`. On `Err` (out of memory) the effects are unchanged.
    fn append(&mut self, more: &Effects) -> Result<(), AllocError>
        ensures ok { OnOk result (self.new ≡ self.old ++ more.now) }
        ensures err { OnErr result (self.new ≡ self.old) }
    {
        self.changes.reserve(more.changes.len())?;
        if more.conditions.len() > 0 {
            self.conditions.fill(self.changes.len())?;
            self.conditions.append(&more.conditions)?;
        }
        self.changes.extend_from_slice(more.changes.as_slice())?;
        Ok(())
    }

    /// Appends all effects of `more`. If there are none before them, takes them over and needs no memory. Afterwards the content of `more` is
    /// unspecified. On `Err` (out of memory) the effects are unchanged.
    pub(crate) fn take_all(&mut self, more: &mut Effects) -> Result<(), AllocError>
        ensures ok { OnOk result (self.new ≡ self.old ++ more.old) }
        ensures err { OnErr result (self.new ≡ self.old) }
    {
        if self.len() == 0 {
            mem::swap(self, more);
            return Ok(());
        }
        self.append(more)
    }

    /// Keeps the first `count` effects.
    pub(crate) fn truncate(&mut self, count: usize)
        requires { count ≤ length self.old }
        ensures { self.new ≡ take count self.old }
    {
        self.changes.truncate(count);
        if count < self.conditions.len() {
            self.conditions.truncate(count);
        }
    }

    /// Removes all effects but keeps the memory.
    pub fn clear(&mut self)
        ensures { self.new ≡ [] }
    {
        self.changes.clear();
        self.conditions.clear();
    }
}
