// A task together with its index.
ghost use Rattle.std.specs.Prelude.{◌<◌, length, IfSome};
ghost use Rattle.sas_mutex.specs.ByVariable.{AreOn};

use crate::by_variable::{FEW_EFFECTS, place_of};
use crate::index::{Index, under};
use sas_core::Grounded;
use sas_meaning::Layered;
use std::marker::Model;

/// A task and the index of its groups and effects. In a contract its value is the contents that the task represents.
#[derive(Drop)]
pub struct IndexedTask<'a, 'b, T: Grounded> {
    pub task: &'a Layered<T>,
    pub index: &'b Index,
}

impl<'a, 'b, T: Grounded> Model for IndexedTask<'a, 'b, T> {
    ghost use Rattle.sas_core.specs.declared.parts.Parts.{Parts};
    ghost use Rattle.sas_mutex.specs.Index.{IsIndexOf};

    ghost Value = { Parts };

    ghost view = { λ i. i.task.now };

    ghost invariant = { λ i. IsIndexOf i.task.now i.index.now };
}

impl<'a, 'b, T: Grounded> IndexedTask<'a, 'b, T> {
    /// Returns all effects of a large operator that set the variable, and possibly others. Returns `None` if the operator isn't large.
    #[inline(always)]
    pub fn effects_on(&self, operator: u32, var: u32) -> Option<&'b [u32]>
        requires { operator < length self.now.operators }
        ensures { IfSome result (λ effects. AreOn self.now operator var effects.now) }
    {
        if self.task.effects(operator) > FEW_EFFECTS {
            let place = place_of(operator, var, self.index.effects.len());
            return Some(under(&self.index.effects, place));
        }
        None
    }
}
