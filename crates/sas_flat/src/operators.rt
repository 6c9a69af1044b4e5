// Operators in a few blocks of memory.
ghost use Rattle.std.specs.Prelude.{◌≡◌, ◌<◌, ◌≤◌, ◌+◌, ◌*◌, [], ◌∷◌, ◌++◌, length, take, IfSome, OnOk, OnErr};
ghost use Rattle.std.specs.List.{sum_by};
ghost use Rattle.sas_core.specs.Changes.{change_of, plain_effects};
ghost use Rattle.sas_core.specs.LineNumbers.{operator_height};
ghost use Rattle.sas_flat.specs.Effects.{effect_in_list};
ghost use Rattle.sas_flat.specs.Growing.{Hold};
ghost use Rattle.sas_flat.specs.Lists.{start_of, AreEnds, AreOpen};
ghost use Rattle.sas_flat.specs.Operators.{operator, operators_in, operator_in, name_ends, prevail_ends, effect_ends, end_head};
ghost use Rattle.sas_flat.specs.Operators.{open_operator, OperatorColumnsAlign};

use crate::effects::Effects;
use sas_core::{Change, Fact};
use std::alloc::{AllocError, Global};
use std::marker::Model;

/// The fixed-size data of an operator: its cost, and the ends of its name, its prevail conditions and its effects in the columns. Each
/// starts at the end of the previous operator.
#[derive(Clone, Copy)]
struct Head {
    name: usize,
    prevail: usize,
    effects: usize,
    cost: u32,
}

/// The columns of operators: the names, prevail conditions and effects of all operators, one after another, and the head of each operator.
/// The prevail conditions and effects of the next operator are appended as they are read; then `push` completes it, or `cut` removes them.
pub struct OperatorColumns {
    names: Vec<u8>,
    pub prevail: Vec<Fact>,
    pub effects: Effects,
    heads: Vec<Head>,
}

impl Drop for OperatorColumns {
    fn drop(self) {
        let OperatorColumns {
            names,
            prevail,
            effects,
            heads,
        } = self;
        drop(names);
        drop(prevail);
        drop(effects);
        drop(heads);
    }
}

/// A list of operators. In a contract its value is that list.
#[derive(Drop)]
pub struct Operators {
    columns: OperatorColumns,
}

impl Model for Operators {
    ghost use Rattle.std.specs.Prelude.{List};
    ghost use Rattle.sas_core.specs.declared.parts.Operator.{Operator};
    ghost use Rattle.sas_flat.specs.Lists.{AreEnds};
    ghost use Rattle.sas_flat.specs.Operators.{operators_in, OperatorColumnsAlign};

    ghost Value = { List Operator };

    ghost view = { λ o. operators_in o.columns };

    ghost invariant = { λ o. OperatorColumnsAlign AreEnds o.columns };
}

impl OperatorColumns {
    /// Returns the columns of no operators.
    pub fn new(alloc: Global) -> Self
        ensures { Hold (OperatorColumnsAlign AreEnds) operators_in result [] }
    {
        OperatorColumns {
            names: Vec::new(alloc),
            prevail: Vec::new(alloc),
            effects: Effects::new(alloc),
            heads: Vec::new(alloc),
        }
    }

    /// Returns the head of the previous operator, whose ends are the starts of this operator. For the first operator all its numbers are 0.
    #[inline(always)]
    fn before(&self, operator: usize) -> Head
        requires { operator ≤ length self.now.heads.items }
        ensures name { result.name ≡ start_of (name_ends self.now.heads.items) operator }
        ensures prevail { result.prevail ≡ start_of (prevail_ends self.now.heads.items) operator }
        ensures effects { result.effects ≡ start_of (effect_ends self.now.heads.items) operator }
    {
        if operator == 0 {
            Head {
                name: 0,
                prevail: 0,
                effects: 0,
                cost: 0,
            }
        } else {
            self.heads[operator - 1]
        }
    }

    /// Returns the head of an operator with this cost that ends at the current ends of all columns.
    #[inline(always)]
    fn end(&self, cost: u32) -> Head
        ensures { result ≡ end_head self.now cost }
    {
        Head {
            name: self.names.len(),
            prevail: self.prevail.len(),
            effects: self.effects.len(),
            cost,
        }
    }

    /// Completes an operator whose prevail conditions and effects are appended. On `Err` (out of memory) the operators are unchanged.
    #[inline(always)]
    pub fn push(&mut self, name: &[u8], cost: u32) -> Result<(), AllocError>
        requires { OperatorColumnsAlign AreOpen self.old }
        ensures ok { OnOk result (Hold (OperatorColumnsAlign AreEnds) operators_in self.new
            (operators_in self.old ++ open_operator self.old name.now cost ∷ [])) }
        ensures err { OnErr result
            (Hold (OperatorColumnsAlign AreOpen) operators_in self.new (operators_in self.old)) }
    {
        self.heads.reserve(1)?;
        self.names.extend_from_slice(name)?;
        let head = self.end(cost);
        self.heads.push(head)?;
        Ok(())
    }

    /// Appends an operator. Afterwards the content of `effects` is unspecified. On `Err` (out of memory) its prevail conditions and effects
    /// may have been appended.
    pub fn append(
        &mut self,
        name: &[u8],
        prevail: &[Fact],
        effects: &mut Effects,
        cost: u32,
    ) -> Result<(), AllocError>
        requires { OperatorColumnsAlign AreEnds self.old }
        ensures ok { OnOk result (Hold (OperatorColumnsAlign AreEnds) operators_in self.new
            (operators_in self.old ++ operator name.now prevail.now effects.old cost ∷ [])) }
        ensures err { OnErr result
            (Hold (OperatorColumnsAlign AreOpen) operators_in self.new (operators_in self.old)) }
    {
        self.prevail.extend_from_slice(prevail)?;
        self.effects.take_all(effects)?;
        self.push(name, cost)?;
        Ok(())
    }

    /// Removes the prevail conditions and effects after those of the last operator.
    #[cold]
    #[inline(never)]
    pub fn cut(&mut self)
        requires { OperatorColumnsAlign AreOpen self.old }
        ensures { Hold (OperatorColumnsAlign AreEnds) operators_in self.new
            (operators_in self.old) }
    {
        let end = self.before(self.heads.len());
        self.prevail.truncate(end.prevail);
        self.effects.truncate(end.effects);
    }
}

impl Operators {
    /// Returns the operators in these columns.
    pub fn of_columns(columns: OperatorColumns) -> Self
        requires { OperatorColumnsAlign AreEnds columns }
        ensures { result ≡ operators_in columns }
    {
        Operators { columns }
    }

    /// Returns the number of operators.
    pub fn len(&self) -> usize
        ensures { result ≡ length self.now }
    {
        self.columns.heads.len()
    }

    /// Returns the numbers of prevail conditions and of effects of the first `count` operators.
    pub(crate) fn before(&self, count: usize) -> (usize, usize)
        requires { count ≤ length self.now }
        ensures { 6 * count + result.0 + result.1
            ≡ sum_by operator_height (take count self.now) }
    {
        let end = self.columns.before(count);
        (end.prevail, end.effects)
    }

    /// Returns the name of the operator.
    pub(crate) fn name(&self, operator: usize) -> &[u8]
        requires { operator < length self.now }
        ensures { result.now ≡ (operator_in self.now operator).name }
    {
        let start = self.columns.before(operator).name;
        let end = self.columns.heads[operator].name;
        &self.columns.names.as_slice()[start..end]
    }

    /// Returns the prevail conditions of the operator.
    pub(crate) fn prevail(&self, operator: usize) -> &[Fact]
        requires { operator < length self.now }
        ensures { result.now ≡ (operator_in self.now operator).prevail }
    {
        let start = self.columns.before(operator).prevail;
        let end = self.columns.heads[operator].prevail;
        &self.columns.prevail.as_slice()[start..end]
    }

    /// Returns the number on the operator's cost line.
    pub(crate) fn cost(&self, operator: usize) -> u32
        requires { operator < length self.now }
        ensures { result ≡ (operator_in self.now operator).cost }
    {
        self.columns.heads[operator].cost
    }

    /// Returns the number of effects of the operator.
    pub(crate) fn effects(&self, operator: usize) -> usize
        requires { operator < length self.now }
        ensures { result ≡ length (operator_in self.now operator).effects }
    {
        self.columns.heads[operator].effects - self.columns.before(operator).effects
    }

    /// Returns the change that the operator's effect makes.
    pub(crate) fn change(&self, operator: usize, effect: usize) -> Change
        requires operator { operator < length self.now }
        requires effect { effect < length (operator_in self.now operator).effects }
        ensures { result
            ≡ change_of (effect_in_list (operator_in self.now operator).effects effect) }
    {
        // The number of all effects fits into a `usize`, so this index doesn't overflow.
        let _effects = self.columns.effects.len();
        self.columns
            .effects
            .change(self.columns.before(operator).effects + effect)
    }

    /// Returns the changes of the operator's effects, if neither these effects nor those of later operators have conditions.
    #[inline(always)]
    pub(crate) fn plain_changes(&self, operator: usize) -> Option<&[Change]>
        requires { operator < length self.now }
        ensures { IfSome result (λ changes.
            (operator_in self.now operator).effects ≡ plain_effects changes.now) }
    {
        let start = self.columns.before(operator).effects;
        let end = self.columns.heads[operator].effects;
        self.columns.effects.plain(start, end)
    }

    /// Returns the conditions of the operator's effect.
    pub(crate) fn conditions(&self, operator: usize, effect: usize) -> &[Fact]
        requires operator { operator < length self.now }
        requires effect { effect < length (operator_in self.now operator).effects }
        ensures { result.now
            ≡ (effect_in_list (operator_in self.now operator).effects effect).conditions }
    {
        // The number of all effects fits into a `usize`, so this index doesn't overflow.
        let _effects = self.columns.effects.len();
        self.columns
            .effects
            .conditions(self.columns.before(operator).effects + effect)
    }
}
