// Calls of `sas_mutex`: the verdicts on the groups of a task, and the facts that hold when effects of an operator fire.
use sas_axioms::Layered;
use sas_core::{Effect, Operator, Task};
use sas_mutex::{Facts, Verdict, check_group, check_groups};
use test_words::{cut, fact_of, number_in, say};

/// Calls `check_groups` of a layered task, and `check_group` of each of its groups. Detects a definition that blames an operator none of
/// whose steps breaks the group, or misses one whose step does; a family that isn't the greatest; an operator that isn't the lowest; and a
/// call that is always out of memory.
pub fn check_all(rt: &HostRuntime, layered: &Layered<Task>) {
    match check_groups(rt.alloc(), layered) {
        Ok(verdicts) => {
            say_verdicts(rt, verdicts.as_slice());
            say_alone(rt, layered);
        }
        Err(_) => say(rt, "out of memory"),
    }
}

/// Prints the joint verdicts.
fn say_verdicts(rt: &HostRuntime, verdicts: &[Verdict]) {
    for verdict in verdicts {
        let _ = println!(rt; "joint {verdict:?}");
    }
}

/// Prints the verdict on each group alone. This takes no memory.
fn say_alone(rt: &HostRuntime, layered: &Layered<Task>) {
    for group in layered.task().parts().groups.as_slice() {
        let verdict = check_group(layered, group.as_slice());
        let _ = println!(rt; "alone {verdict:?}");
    }
}

/// Returns the effect with this number, or `None` if there is no such effect.
fn effect_of<'a>(operator: &'a Operator, word: &[u8]) -> Option<&'a Effect> {
    operator.effects.as_slice().get(number_in(word)? as usize)
}

/// Prints the items of `Facts` for an operator of the task: `OPERATOR;EFFECT;EFFECT;FACT`. An empty part means no effect or no fact.
/// Detects a definition of these facts that ignores the old value of an effect that doesn't fire.
pub fn say_facts(rt: &HostRuntime, words: &[u8], task: &Task) -> Option<()> {
    let (number, words) = cut(words, b';');
    let (first, words) = cut(words, b';');
    let (second, extra) = cut(words, b';');
    let operator = task
        .parts()
        .operators
        .as_slice()
        .get(number_in(number)? as usize)?;
    let (first, second) = (effect_of(operator, first), effect_of(operator, second));
    for fact in Facts::new(operator, first, second, fact_of(extra)) {
        let (var, value) = (fact.var, fact.value);
        let _ = println!(rt; "{var} {value}");
    }
    Some(())
}
