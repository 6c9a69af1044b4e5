// Records facts while effects are looked at, and decides whether facts clash.
ghost use Rattle.std.specs.Prelude.{◌↔◌, IsTrue, IfOk, All};
ghost use Rattle.sas_core.specs.Variables.{FactExists};
ghost use Rattle.sas_groups.specs.Clashes.{Clash};
ghost use Rattle.sas_mutex.specs.Kept.{IsKept};
ghost use Rattle.sas_mutex.specs.Notes.{AreBlank, AreFrom};
ghost use Rattle.sas_mutex.specs.Recorded.{IsClean};

use crate::deciding::DecidingGroups;
use crate::indexed::IndexedTask;
use crate::notes::{Notes, forget_facts, has_wide, note, set_apart, widest_of};
use sas_core::{Fact, Grounded};
use std::alloc::{AllocError, Global};

/// The facts that are recorded while effects are looked at.
#[derive(Drop)]
pub struct Recorded {
    /// The known facts of the current effect.
    pub known: Notes,
    /// Other facts, recorded only to find whether they clash.
    pub others: Notes,
    /// The groups that were used in tests.
    pub deciding: DecidingGroups,
}

impl Recorded {
    /// Returns a record of no facts.
    pub fn new<T: Grounded>(
        alloc: Global,
        indexed: &IndexedTask<'_, '_, T>,
    ) -> Result<Recorded, AllocError>
        ensures { IfOk result (λ recorded. IsClean indexed.now recorded) }
    {
        let some_wide = has_wide(indexed.index);
        Ok(Recorded {
            known: Notes::new(alloc, indexed.task, some_wide)?,
            others: Notes::new(alloc, indexed.task, some_wide)?,
            deciding: DecidingGroups::new(),
        })
    }
}

/// Returns whether the facts clash. `notes` must be empty, and is empty again on return.
pub fn facts_clash<T: Grounded>(
    indexed: &IndexedTask<'_, '_, T>,
    kept: &[bool],
    facts: &[Fact],
    notes: &mut Notes,
    deciding: &DecidingGroups,
) -> bool
    requires exist { All (FactExists indexed.now.variables) facts.now }
    requires blank { AreBlank indexed.now notes.old }
    ensures is { IsTrue result ↔ Clash (IsKept indexed.now kept.now) facts.now }
    ensures blank { AreBlank indexed.now notes.new }
{
    // A fact doesn't clash with itself.
    if facts.len() < 2 {
        return false;
    }
    let clash = note_facts(indexed, kept, facts, notes, deciding);
    forget_facts(indexed, facts, notes);
    clash
}

/// Records the facts and returns whether they clash. If they do, not all of them are recorded.
fn note_facts<T: Grounded>(
    indexed: &IndexedTask<'_, '_, T>,
    kept: &[bool],
    facts: &[Fact],
    notes: &mut Notes,
    deciding: &DecidingGroups,
) -> bool
    requires exist { All (FactExists indexed.now.variables) facts.now }
    requires blank { AreBlank indexed.now notes.old }
    ensures is { IsTrue result ↔ Clash (IsKept indexed.now kept.now) facts.now }
    ensures from { AreFrom indexed.now facts.now notes.new }
{
    let widest = widest_of(indexed.index, facts, notes.some_wide);
    set_apart(widest, notes);
    for fact in facts {
        if !note(indexed.index, kept, *fact, notes, deciding) {
            return true;
        }
    }
    false
}
