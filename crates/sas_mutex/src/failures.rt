// The first failure of an effect to keep a group.
ghost use Rattle.std.specs.Prelude.{◌≡◌, Contains};
ghost use Rattle.sas_core.specs.Grounded.{group_at};
ghost use Rattle.sas_mutex.specs.ByFact.{HasFact};
ghost use Rattle.sas_groups.specs.Clashes.{sets};
ghost use Rattle.sas_groups.specs.Families.{IsIn};
ghost use Rattle.sas_mutex.specs.Kept.{family_of, IsKept};
ghost use Rattle.sas_mutex.specs.Effects.{operator_of, effect_of};
ghost use Rattle.sas_mutex.specs.ByNotes.{IsNotedAt, EffectKeepsGroup, EffectKeepsGroupWithItself};
ghost use Rattle.sas_mutex.specs.FirstFailures.{IsFirstStaying, IsFirstOfEffect, IsFirstOfEffectAt};

use crate::effects::FiringEffect;
use crate::lowest::lowest_together;
use crate::recorded::Recorded;
use sas_core::{Grounded, Items};

/// How an operator fails to keep a group. Effects are identified by their index among the effects of the operator.
#[derive(Clone, Copy)]
pub enum Failure {
    /// Both effects set facts of the group, on different variables, and may fire together: the facts that hold then don't clash.
    SetsTwo { effect: u32, other: u32 },
    /// The effect sets a fact of the group, while the fact of the group at index `place`, which is on another variable, may hold before and
    /// isn't removed.
    MayStay { effect: u32, place: usize },
}

/// Returns the first failure of the effect to keep the group, assuming the family and the group itself. The group must contain the fact
/// that the effect sets, and the effect must not keep it. The known facts must be recorded and must not clash. The family is unchanged on
/// return.
pub fn first_failure<T: Grounded>(
    firing: &FiringEffect<'_, '_, T>,
    group: u32,
    kept: &mut Items<bool>,
    recorded: &mut Recorded,
) -> Failure
    requires notes { IsNotedAt firing.now kept.old recorded.old }
    requires has { HasFact firing.now.task group (sets (effect_of firing.now)) }
    requires broken { EffectKeepsGroupWithItself firing.now kept.old group → ⊥ }
    ensures first { IsFirstOfEffectAt firing.now kept.old group result }
    ensures kept { kept.new ≡ kept.old }
    ensures notes { IsNotedAt firing.now kept.old recorded.new }
{
    let counts = kept.as_slice()[group as usize];
    kept.set(group as usize, true);
    let failure = failure_by_notes(firing, group, kept.as_slice(), recorded);
    kept.set(group as usize, counts);
    failure
}

/// Returns the first failure of the effect to keep the group, which must be in the family. The effect must not keep it. The known
/// facts must be recorded and must not clash.
fn failure_by_notes<T: Grounded>(
    firing: &FiringEffect<'_, '_, T>,
    group: u32,
    kept: &[bool],
    recorded: &mut Recorded,
) -> Failure
    requires notes { IsNotedAt firing.now kept.now recorded.old }
    requires group { IsIn firing.now.task (family_of kept.now) group }
    requires has { Contains (group_at firing.now.task group) (sets (effect_of firing.now)) }
    requires broken { EffectKeepsGroup firing.now kept.now group → ⊥ }
    ensures first { let f = firing.now in IsFirstOfEffect (IsKept f.task kept.now)
        (operator_of f) (group_at f.task group) f.effect result }
    ensures notes { IsNotedAt firing.now kept.now recorded.new }
{
    let effect = firing.effect;
    let other = lowest_together(firing, kept, group, recorded);
    if other < firing.task.effects(firing.operator) {
        return Failure::SetsTwo { effect, other };
    }
    let place = first_staying(firing, kept, group, recorded);
    Failure::MayStay { effect, place }
}

/// Returns the index of the first fact of the group that may remain when the effect fires, or the number of its facts if none may.
fn first_staying<T: Grounded>(
    firing: &FiringEffect<'_, '_, T>,
    kept: &[bool],
    group: u32,
    recorded: &Recorded,
) -> usize
    requires notes { IsNotedAt firing.now kept.now recorded.now }
    requires group { IsIn firing.now.task (family_of kept.now) group }
    ensures { IsFirstStaying firing.now kept.now (group_at firing.now.task group) result }
{
    // For the proof: accessing a field makes the invariant of the effect available.
    let _ = &firing.task;
    let facts = firing.task.group(group);
    for (place, fact) in facts.iter().enumerate() {
        if !firing.is_gone(kept, *fact, recorded) {
            return place;
        }
    }
    facts.len()
}
