// Which facts exclude each other.
ghost use Rattle.std.specs.Prelude.{◌<◌, ◌↔◌, length, Contains, IsTrue};
ghost use Rattle.std.specs.List.{Any};
ghost use Rattle.sas_groups.specs.Clashes.{Contradict, Clash};
ghost use Rattle.sas_groups.specs.Keeping.{Alone};
ghost use Rattle.sas_groups.specs.Lists.{known_on};

use crate::known::{Known, Premises};
use sas_core::{Fact, Grounded};
use sas_meaning::Layered;

/// Returns whether `facts` contains `fact`.
pub fn contains(facts: &[Fact], fact: Fact) -> bool
    ensures { IsTrue result ↔ Contains facts.now fact }
{
    facts.iter().any(|x| *x == fact)
}

/// Returns whether the two facts contradict each other: two values of a variable, or two different facts of the group.
fn contradict(group: &[Fact], f: Fact, g: Fact) -> bool
    ensures { IsTrue result ↔ Contradict (Alone group.now) f g }
{
    if f.var == g.var {
        f.value != g.value
    } else {
        contains(group, f) && contains(group, g)
    }
}

/// Returns whether the fact contradicts a known fact.
fn contradicts_known<T: Grounded>(
    task: &Layered<T>,
    premises: &Premises<'_>,
    group: &[Fact],
    f: Fact,
) -> bool
    requires { premises.now.operator < length task.now.operators }
    ensures { IsTrue result
        ↔ Any (Contradict (Alone group.now) f) (known_on task.now premises.now) }
{
    for g in Known::new(task, premises) {
        if contradict(group, f, g) {
            return true;
        }
    }
    false
}

/// Returns whether two of the known facts contradict each other.
pub fn clash<T: Grounded>(task: &Layered<T>, premises: &Premises<'_>, group: &[Fact]) -> bool
    requires { premises.now.operator < length task.now.operators }
    ensures { IsTrue result ↔ Clash (Alone group.now) (known_on task.now premises.now) }
{
    for f in Known::new(task, premises) {
        if contradicts_known(task, premises, group, f) {
            return true;
        }
    }
    false
}
