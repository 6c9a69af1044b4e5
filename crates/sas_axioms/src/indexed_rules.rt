// A layered task together with the indexes of its rules.
use crate::conditions::RuleCondition;
use sas_core::Grounded;
use sas_flat::Lists;
use sas_meaning::Layered;
use std::marker::Model;

/// A layered task and the indexes of its rules: those that wait for a variable, and those that set it. In a contract its value is the
/// contents that the task represents.
#[derive(Drop)]
pub struct IndexedRules<'a, 'b, T: Grounded> {
    pub layered: &'a Layered<T>,
    /// For each variable, the conditions on it.
    pub waiting: &'b Lists<RuleCondition>,
    /// For each derived variable, its rules.
    pub setting: &'b Lists<u32>,
}

impl<'a, 'b, T: Grounded> Model for IndexedRules<'a, 'b, T> {
    ghost use Rattle.sas_core.specs.declared.parts.Parts.{Parts};
    ghost use Rattle.sas_axioms.specs.Conditions.{AreIndexed};

    ghost Value = { Parts };

    ghost view = { λ i. i.layered.now };

    ghost invariant = { λ i. AreIndexed i.layered.now i.waiting.now i.setting.now };
}
