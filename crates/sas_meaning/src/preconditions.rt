// The preconditions of an operator.
ghost use Rattle.std.specs.Prelude.{◌≡◌, ◌<◌, length};
ghost use Rattle.sas_core.specs.Grounded.{operator_at};
ghost use Rattle.sas_meaning.specs.Steps.{preconditions};

use sas_core::{Fact, Grounded};
use std::marker::Model;

/// Iterates over the preconditions of an operator: its prevail conditions, then the old values that its effects require. In a contract its value is the list of the remaining facts.
#[derive(Drop)]
pub struct Preconditions<'a, T: Grounded> {
    task: &'a T,
    operator: u32,
    prevail: &'a [Fact],
    /// The next effect to be examined.
    effect: u32,
    /// The number of effects.
    effects: u32,
}

impl<'a, T: Grounded> Model for Preconditions<'a, T> {
    ghost use Rattle.std.specs.Prelude.{List};
    ghost use Rattle.sas_core.specs.declared.parts.Fact.{Fact};
    ghost use Rattle.sas_core.specs.Grounded.{operator_at};
    ghost use Rattle.sas_meaning.specs.Preconditions.{preconditions_left, IsAtOperator};

    ghost Value = { List Fact };

    ghost view = { λ it. preconditions_left it.prevail.now
        (operator_at (T.says it.task.now) it.operator) it.effect };

    ghost invariant = { λ it. IsAtOperator (T.says it.task.now) it.operator it.effect it.effects };
}

impl<'a, T: Grounded> Preconditions<'a, T> {
    /// Returns an iterator over all preconditions of the operator.
    #[inline(always)]
    pub fn new(task: &'a T, operator: u32) -> Preconditions<'a, T>
        requires { operator < length (T.says task.now).operators }
        ensures { result ≡ preconditions (operator_at (T.says task.now) operator) }
    {
        Preconditions {
            task,
            operator,
            prevail: task.prevail(operator),
            effect: 0,
            effects: task.effects(operator),
        }
    }
}

impl<'a, T: Grounded> Iterator for Preconditions<'a, T> {
    type Item = Fact;

    ghost use Rattle.std.specs.Iterator.{YieldsFirst, item_count};

    ghost next_gives = { YieldsFirst (λ left. left) };

    ghost remaining = { item_count (λ left. left) };

    #[inline(always)]
    fn next(&mut self) -> Option<Fact> {
        if let Some((fact, rest)) = self.prevail.split_first() {
            self.prevail = rest;
            return Some(Fact {
                var: fact.var,
                value: fact.value,
            });
        }
        while self.effect != self.effects {
            let change = self.task.effect_change(self.operator, self.effect);
            self.effect += 1;
            if let Some(value) = change.old {
                return Some(Fact {
                    var: change.var,
                    value,
                });
            }
        }
        None
    }
}
