// Layered tasks.
ghost use Rattle.std.specs.Prelude.{◌≡◌, ◌≢◌, Some, IfOk, IfErr};
ghost use Rattle.sas_core.specs.FirstFault.{first_fault};
ghost use Rattle.sas_meaning.specs.LayerChecks.{layer_checks};
ghost use Rattle.sas_meaning.specs.Layers.{IsLayered};

use crate::layer_checks::check_layers;
use sas_core::{Change, Fact, Grounded, Task};
use std::alloc::{AllocError, Global};
use std::marker::Model;

/// Why a task isn't layered. Operators, effects, rules and conditions are identified by their index, counted from 0.
#[derive(Clone, Copy, Debug, PartialEq, Eq)]
pub enum LayerFault {
    /// The operator has an effect on a derived variable.
    EffectOnDerived { operator: u32, effect: u32 },
    /// The variable of the rule is a basic variable.
    RuleOnBasic { rule: u32 },
    /// The rule can fire, and it requires an old value other than the default of its variable.
    OldValue { rule: u32 },
    /// The rule can fire, and an earlier rule that can fire sets the same variable to another value.
    TwoValues { rule: u32 },
    /// The rule can fire, and this condition is on a derived variable of a higher layer, or on the default of a derived variable of the
    /// same layer.
    LayerOrder { rule: u32, condition: u32 },
    /// Out of memory.
    Memory,
}

impl From<AllocError> for LayerFault {
    ghost use Rattle.sas_meaning.specs.declared.layered.LayerFault.TheVariants.{Memory};

    ghost from_gives = { λ _ e. e ≡ Memory };

    fn from(_error: AllocError) -> LayerFault {
        LayerFault::Memory
    }
}

/// A layered task. In a contract its value is the contents that the task represents.
#[derive(Drop)]
pub struct Layered<T: Grounded = Task> {
    task: T,
}

impl<T: Grounded> Model for Layered<T> {
    ghost use Rattle.sas_core.specs.declared.parts.Parts.{Parts};
    ghost use Rattle.sas_core.specs.WellRanged.{WellRanged};
    ghost use Rattle.sas_meaning.specs.Layers.{IsLayered};

    ghost Value = { Parts };

    ghost view = { λ l. T.says l.task };

    ghost invariant = { λ l. WellRanged (T.says l.task) × IsLayered (T.says l.task) };
}

impl<T: Grounded> Layered<T> {
    ghost use Rattle.sas_core.specs.WellRanged.{WellRanged};

    /// Returns the layered task if the task is layered. Otherwise returns the task unchanged and its first fault.
    ///
    /// The order of the checks is:
    /// - For each operator and each of its effects, `EffectOnDerived`.
    /// - For each rule `RuleOnBasic`; then, if the rule can fire, `OldValue`, `TwoValues`, and `LayerOrder` for each of its conditions.
    ///
    /// `Memory` may be reported instead of any other result.
    pub fn new(alloc: Global, task: T) -> Result<Layered<T>, (T, LayerFault)>
        ensures task { IfOk result (λ l. l ≡ T.says task) }
        ensures layered { IfOk result (λ l. IsLayered l) }
        ensures handed_back { IfErr result (λ e. e.0 ≡ task) }
        ensures first { IfErr result (λ e. e.1 ≢ LayerFault.Memory
            → first_fault (layer_checks (T.says task)) ≡ Some e.1) }
    {
        match check_layers(alloc, &task) {
            Err(fault) => Err((task, fault)),
            Ok(()) => Ok(Layered { task }),
        }
    }

    /// Returns the task, which is well ranged and layered.
    pub fn task(&self) -> &T
        ensures task { T.says result.now ≡ self.now }
        ensures well_ranged { WellRanged self.now }
        ensures layered { IsLayered self.now }
    {
        &self.task
    }

    /// Converts the layered task into its task.
    pub fn into_task(self) -> T
        ensures { T.says result ≡ self }
    {
        let Layered { task } = self;
        task
    }
}

/// Each method calls that of the task. Its type shows that the task is well ranged and layered.
impl<T: Grounded> Grounded for Layered<T> {
    ghost says = { λ l. l };

    fn variables(&self) -> u32 {
        self.task.variables()
    }

    fn groups(&self) -> u32 {
        self.task.groups()
    }

    fn operators(&self) -> u32 {
        self.task.operators()
    }

    fn rules(&self) -> u32 {
        self.task.rules()
    }

    fn range(&self, var: u32) -> u32 {
        self.task.range(var)
    }

    fn layer(&self, var: u32) -> Option<u32> {
        self.task.layer(var)
    }

    fn initial_value(&self, var: u32) -> u32 {
        self.task.initial_value(var)
    }

    fn goal(&self) -> &[Fact] {
        self.task.goal()
    }

    fn group(&self, group: u32) -> &[Fact] {
        self.task.group(group)
    }

    fn name(&self, operator: u32) -> &[u8] {
        self.task.name(operator)
    }

    fn cost(&self, operator: u32) -> u32 {
        self.task.cost(operator)
    }

    fn cost_line(&self, operator: u32) -> u32 {
        self.task.cost_line(operator)
    }

    fn prevail(&self, operator: u32) -> &[Fact] {
        self.task.prevail(operator)
    }

    fn effects(&self, operator: u32) -> u32 {
        self.task.effects(operator)
    }

    fn effect_conditions(&self, operator: u32, effect: u32) -> &[Fact] {
        self.task.effect_conditions(operator, effect)
    }

    fn effect_change(&self, operator: u32, effect: u32) -> Change {
        self.task.effect_change(operator, effect)
    }

    fn plain_changes(&self, operator: u32) -> Option<&[Change]> {
        self.task.plain_changes(operator)
    }

    fn rule_conditions(&self, rule: u32) -> &[Fact] {
        self.task.rule_conditions(rule)
    }

    fn rule_change(&self, rule: u32) -> Change {
        self.task.rule_change(rule)
    }
}
