// The facts that hold when effects of an operator fire. For tasks given as `Parts`.
ghost use Rattle.std.specs.Prelude.{◌≡◌, ◌++◌, filter_map, option_map};
ghost use Rattle.std.specs.Option.{option_to_list};
ghost use Rattle.std.specs.Iterator.{YieldsFirst, item_count};
ghost use Rattle.sas_meaning.specs.Steps.{old_fact};
ghost use Rattle.sas_groups.specs.Lists.{facts_left, conditions_of};

use sas_core::{Effect, Fact, Operator};

/// Iterates over the facts that hold before a step in which up to two effects of an operator fire: its prevail conditions, the old values
/// of its effects, the conditions of the first and of the second effect, and one additional fact. Copies nothing and allocates no memory.
/// `facts_left` are the remaining facts.
#[derive(Clone, Copy)]
pub struct Facts<'a> {
    prevail: &'a [Fact],
    effects: &'a [Effect],
    first: &'a [Fact],
    second: &'a [Fact],
    extra: Option<Fact>,
}

impl<'a> Facts<'a> {
    /// Returns an iterator over all these facts.
    pub fn new(
        operator: &'a Operator,
        first: Option<&'a Effect>,
        second: Option<&'a Effect>,
        extra: Option<Fact>,
    ) -> Facts<'a>
        ensures { facts_left result ≡ operator.now.prevail
            ++ (filter_map old_fact operator.now.effects
            ++ (conditions_of (option_map (λ e. e.now) first.entry)
            ++ (conditions_of (option_map (λ e. e.now) second.entry) ++ option_to_list extra))) }
    {
        Facts {
            prevail: operator.prevail.as_slice(),
            effects: operator.effects.as_slice(),
            first: conditions(first),
            second: conditions(second),
            extra,
        }
    }
}

impl<'a> Iterator for Facts<'a> {
    type Item = Fact;

    ghost next_gives = { YieldsFirst facts_left };

    ghost remaining = { item_count facts_left };

    fn next(&mut self) -> Option<Fact> {
        if let Some((fact, rest)) = self.prevail.split_first() {
            self.prevail = rest;
            return Some(*fact);
        }
        while let Some((effect, rest)) = self.effects.split_first() {
            self.effects = rest;
            if let Some(value) = effect.old {
                return Some(Fact {
                    var: effect.var,
                    value,
                });
            }
        }
        if let Some((fact, rest)) = self.first.split_first() {
            self.first = rest;
            return Some(*fact);
        }
        if let Some((fact, rest)) = self.second.split_first() {
            self.second = rest;
            return Some(*fact);
        }
        self.extra.take()
    }
}

/// Returns the conditions of the effect, or no conditions for `None`.
fn conditions<'a>(effect: Option<&'a Effect>) -> &'a [Fact]
    ensures { result.now ≡ conditions_of (option_map (λ e. e.now) effect.entry) }
{
    match effect {
        Some(effect) => effect.conditions.as_slice(),
        None => &[],
    }
}
