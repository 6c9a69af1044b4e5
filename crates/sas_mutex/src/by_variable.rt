// The effects of large operators, grouped by the variables that they set.
ghost use Rattle.std.specs.Prelude.{◌≡◌, ◌<◌, ℕ, length, IfOk, OnOk, All};
ghost use Rattle.sas_core.specs.Grounded.{operator_at};
ghost use Rattle.sas_flat.specs.declared.by_key.Entry.{Entry};
ghost use Rattle.sas_mutex.specs.ByVariable as spec;
ghost use Rattle.sas_mutex.specs.ByVariable.{AreByVariable, AreEntered};

use sas_core::Grounded;
use sas_flat::{Entry, Lists};
use sas_meaning::Layered;
use std::alloc::{AllocError, Global};

/// An operator with more effects is large. For the others a scan of all effects is faster than the index.
pub const FEW_EFFECTS: u32 = 16;

/// A hash multiplier, which spreads the effects of different operators.
const SPREAD: u64 = 2_654_435_769;

/// Returns the effects of large operators, grouped by the hash of operator and variable.
pub fn effects_by_variable<T: Grounded>(
    alloc: Global,
    layered: &Layered<T>,
) -> Result<Lists<u32>, AllocError>
    ensures { IfOk result (λ effects. AreByVariable layered.now effects) }
{
    let task = layered.task();
    let places = number_of_places(layered);
    let mut entries = Vec::new(alloc);
    for operator in 0..task.operators() {
        if task.effects(operator) > FEW_EFFECTS {
            enter_effects(layered, operator, places, &mut entries)?;
        }
    }
    Lists::by_key(alloc, entries.as_slice(), places)
}

/// Returns the number of hash values: one for each effect of a large operator, and one more.
fn number_of_places<T: Grounded>(task: &Layered<T>) -> usize
    ensures { 0 < result }
{
    let mut places = 1usize;
    for operator in 0..task.operators() {
        let effects = task.effects(operator);
        if effects > FEW_EFFECTS {
            places = places.saturating_add(effects as usize);
        }
    }
    places
}

/// Appends an entry for each effect of the operator.
fn enter_effects<T: Grounded>(
    task: &Layered<T>,
    operator: u32,
    places: usize,
    entries: &mut Vec<Entry<u32>>,
) -> Result<(), AllocError>
    requires operator { operator < length task.now.operators }
    requires some { 0 < places }
    requires low { All (λ (entry : Entry ℕ). entry.key < places) entries.old.items }
    ensures low { OnOk result (All (λ (entry : Entry ℕ). entry.key < places) entries.new.items) }
    ensures entered { OnOk result (AreEntered task.now places operator
        (length (operator_at task.now operator).effects) entries.old.items entries.new.items) }
{
    for effect in 0..task.effects(operator) {
        let key = place_of(operator, task.effect_change(operator, effect).var, places);
        entries.push(Entry { key, item: effect })?;
    }
    Ok(())
}

/// Returns the hash of the operator and the variable, below `places`. Other pairs may have the same hash.
pub fn place_of(operator: u32, var: u32, places: usize) -> usize
    requires { 0 < places }
    ensures is { result ≡ spec.place_of operator var places }
    ensures low { result < places }
{
    ((operator as u64 * SPREAD + var as u64) % places as u64) as usize
}
