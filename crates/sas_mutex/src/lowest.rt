// The lowest effect that may set another fact of a group in the same step.
ghost use Rattle.std.specs.Prelude.{Contains};
ghost use Rattle.sas_groups.specs.Families.{IsIn};
ghost use Rattle.sas_mutex.specs.Kept.{family_of};
ghost use Rattle.sas_mutex.specs.ByNotes.{IsNotedAt};
ghost use Rattle.sas_mutex.specs.FirstFailures.{IsLowestPartner, IsAny, SetsVariable};

use crate::effects::{FiringEffect, begins_run};
use crate::recorded::Recorded;
use sas_core::Grounded;

/// Returns the lowest effect that may set a fact of the group on another variable in the same step as this effect, or the number of all
/// effects if there is none. For a large operator, only effects on variables of the group are looked at if the group has fewer facts than
/// the operator has effects.
pub fn lowest_together<T: Grounded>(
    firing: &FiringEffect<'_, '_, T>,
    kept: &[bool],
    group: u32,
    recorded: &mut Recorded,
) -> u32
    requires notes { IsNotedAt firing.now kept.now recorded.old }
    requires group { IsIn firing.now.task (family_of kept.now) group }
    ensures notes { IsNotedAt firing.now kept.now recorded.new }
    ensures lowest { IsLowestPartner firing.now kept.now group IsAny result }
{
    if firing.has_more_effects(group) {
        lowest_by_facts(firing, kept, group, recorded)
    } else {
        lowest_of_all(firing, kept, group, recorded)
    }
}

/// `lowest_together` by looking at all effects.
fn lowest_of_all<T: Grounded>(
    firing: &FiringEffect<'_, '_, T>,
    kept: &[bool],
    group: u32,
    recorded: &mut Recorded,
) -> u32
    requires notes { IsNotedAt firing.now kept.now recorded.old }
    requires group { IsIn firing.now.task (family_of kept.now) group }
    ensures notes { IsNotedAt firing.now kept.now recorded.new }
    ensures lowest { IsLowestPartner firing.now kept.now group IsAny result }
{
    let effects = firing.task.effects(firing.operator);
    for other in 0..effects {
        if !firing.not_both(kept, other, group, recorded) {
            return other;
        }
    }
    effects
}

/// `lowest_together` by looking at the effects on each variable of the group. The facts of the group are sorted, so facts on the same
/// variable are adjacent.
fn lowest_by_facts<T: Grounded>(
    firing: &FiringEffect<'_, '_, T>,
    kept: &[bool],
    group: u32,
    recorded: &mut Recorded,
) -> u32
    requires notes { IsNotedAt firing.now kept.now recorded.old }
    requires group { IsIn firing.now.task (family_of kept.now) group }
    ensures notes { IsNotedAt firing.now kept.now recorded.new }
    ensures lowest { IsLowestPartner firing.now kept.now group IsAny result }
{
    let facts = firing.index.facts_of(firing.task, group);
    let mut lowest = firing.task.effects(firing.operator);
    for place in 0..facts.len() {
        if begins_run(facts, place) {
            lowest = lowest.min(lowest_on(firing, kept, group, facts[place].var, recorded));
        }
    }
    lowest
}

/// `lowest_together` for the effects on variable `var`. May return a lower effect on another variable.
fn lowest_on<T: Grounded>(
    firing: &FiringEffect<'_, '_, T>,
    kept: &[bool],
    group: u32,
    var: u32,
    recorded: &mut Recorded,
) -> u32
    requires notes { IsNotedAt firing.now kept.now recorded.old }
    requires group { IsIn firing.now.task (family_of kept.now) group }
    ensures notes { IsNotedAt firing.now kept.now recorded.new }
    ensures lowest { IsLowestPartner firing.now kept.now group
        (SetsVariable firing.now var) result }
{
    match firing.effects_on(var) {
        Some(effects) => lowest_among(firing, kept, group, effects, recorded),
        None => lowest_of_all(firing, kept, group, recorded),
    }
}

/// `lowest_together` for these effects.
fn lowest_among<T: Grounded>(
    firing: &FiringEffect<'_, '_, T>,
    kept: &[bool],
    group: u32,
    effects: &[u32],
    recorded: &mut Recorded,
) -> u32
    requires notes { IsNotedAt firing.now kept.now recorded.old }
    requires group { IsIn firing.now.task (family_of kept.now) group }
    ensures notes { IsNotedAt firing.now kept.now recorded.new }
    ensures lowest { IsLowestPartner firing.now kept.now group (Contains effects.now) result }
{
    let mut lowest = firing.task.effects(firing.operator);
    for other in effects {
        if *other < lowest && !firing.not_both(kept, *other, group, recorded) {
            lowest = *other;
        }
    }
    lowest
}
