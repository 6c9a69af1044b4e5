// The joint verdicts on groups.
ghost use Rattle.std.specs.Prelude.{◌≡◌, ◌≢◌, ℕ, ◌+◌, ◌<◌, ◌↔◌, length, All, IfOk, IsSomeAnd, IsTrue, IsFalse};
ghost use Rattle.sas_groups.specs.Clashes.{sets};
ghost use Rattle.sas_groups.specs.Families.{IsGreatest};
ghost use Rattle.sas_groups.specs.declared.verdict.Verdict.{Verdict};
ghost use Rattle.sas_groups.specs.declared.verdict.Verdict.TheVariants.{Exclusive};
ghost use Rattle.sas_mutex.specs.Kept.{family_of};
ghost use Rattle.sas_mutex.specs.Effects.{effect_of};
ghost use Rattle.sas_mutex.specs.ByFact.{HasFact};
ghost use Rattle.sas_mutex.specs.Noting.{AreBelow};
ghost use Rattle.sas_groups.specs.Verdicts.{verdict_at, AreJointVerdicts, AreInvariants};
ghost use Rattle.sas_mutex.specs.VerdictsSoFar.{AreFirstVerdicts, IsUndecided, AreFoundSoFar, ConsidersAt};
ghost use Rattle.sas_mutex.specs.ByNotes.{EffectKeepsGroupWithItself};
ghost use Rattle.sas_mutex.specs.Failures.{AreFailures, failure_at};
ghost use Rattle.sas_mutex.specs.FirstFailures.{IsFirstOfEffectAt};
ghost use Rattle.sas_mutex.specs.Looking.{IsIdle, IsAtEffect};

use crate::effects::FiringEffect;
use crate::failures::{Failure, first_failure};
use crate::greatest::Search;
use crate::index::Index;
use crate::indexed::IndexedTask;
use crate::looking::Keeping;
use sas_core::{Grounded, Items};
use sas_groups::{Verdict, before_operators};
use sas_meaning::Layered;
use std::alloc::{AllocError, Global};

/// The joint verdicts on the groups of a task.
#[derive(Drop)]
pub struct GroupVerdicts {
    /// The verdict on each group, in order.
    pub verdicts: Items<Verdict>,
    /// For each group, the first failure of the operator that breaks it, or `None` if no operator does. Without entries if failures aren't
    /// wanted.
    pub failures: Items<Option<Failure>>,
}

/// Returns the joint verdict on each group of the task, in order. The groups of the greatest family that is kept jointly are
/// exclusive. All memory is allocated before the operators are looked at.
pub fn check_groups<T: Grounded>(
    alloc: Global,
    layered: &Layered<T>,
) -> Result<Vec<Verdict>, AllocError>
    ensures verdicts { IfOk result (λ verdicts. AreJointVerdicts layered.now verdicts.items) }
    // If a group is exclusive, no reachable state contains two different facts of it.
    ensures invariants { IfOk result (λ verdicts. AreInvariants layered.now verdicts.items) }
{
    let found = joint_verdicts(alloc, layered, false)?;
    let GroupVerdicts { verdicts, failures } = found;
    drop(failures);
    Ok(verdicts.into_vec())
}

/// Returns the joint verdict on each group of the task, and, if wanted, the first failure of each operator that breaks a group. All memory
/// is allocated before the operators are looked at.
pub fn joint_verdicts<T: Grounded>(
    alloc: Global,
    layered: &Layered<T>,
    with_failures: bool,
) -> Result<GroupVerdicts, AllocError>
    ensures verdicts { IfOk result (λ found. AreJointVerdicts layered.now found.verdicts) }
    ensures failures { IfOk result
        (λ found. AreFailures layered.now found.verdicts found.failures) }
    ensures wanted { IsTrue with_failures
        → IfOk result (λ found. length found.failures ≡ length layered.now.groups) }
{
    let mut found = first_verdicts(alloc, layered, with_failures)?;
    // If no group may be exclusive, no operator needs to be looked at.
    if !some_exclusive(found.verdicts.as_slice()) {
        return Ok(found);
    }
    let index = Index::new(alloc, layered)?;
    let indexed = IndexedTask {
        task: layered,
        index: &index,
    };
    let completed = complete_verdicts(alloc, &indexed, &mut found);
    drop(index);
    completed?;
    Ok(found)
}

/// Allocates the memory, looks at the operators, and completes the verdicts. What is called then takes no allocator, so it can't
/// allocate memory.
fn complete_verdicts<T: Grounded>(
    alloc: Global,
    indexed: &IndexedTask<'_, '_, T>,
    found: &mut GroupVerdicts,
) -> Result<(), AllocError>
    requires { AreFirstVerdicts indexed.now found.old.verdicts }
    ensures verdicts { IfOk result (λ _. AreJointVerdicts indexed.now found.new.verdicts) }
    ensures failures { IfOk result
        (λ _. AreFailures indexed.now found.new.verdicts found.new.failures) }
    ensures as_many { length found.new.failures ≡ length found.old.failures }
{
    let mut search = Search::new(alloc, indexed, found.verdicts.as_slice())?;
    search.find_greatest(indexed);
    find_breaking(indexed, &mut search.keeping, found);
    drop(search);
    Ok(())
}

/// Returns the verdict on each group before operators are looked at, with room for failures if they are wanted.
fn first_verdicts<T: Grounded>(
    alloc: Global,
    layered: &Layered<T>,
    with_failures: bool,
) -> Result<GroupVerdicts, AllocError>
    ensures verdicts { IfOk result (λ found. AreFirstVerdicts layered.now found.verdicts) }
    ensures wanted { IsTrue with_failures
        → IfOk result (λ found. length found.failures ≡ length layered.now.groups) }
{
    let verdicts = before_all_operators(alloc, layered)?;
    let room = if with_failures { verdicts.len() } else { 0 };
    let failures = Items::from_vec(vec![in alloc; None; room]?);
    Ok(GroupVerdicts { verdicts, failures })
}

/// Returns the verdict on each group before operators are looked at.
fn before_all_operators<T: Grounded>(
    alloc: Global,
    layered: &Layered<T>,
) -> Result<Items<Verdict>, AllocError>
    ensures { IfOk result (AreFirstVerdicts layered.now) }
{
    let task = layered.task();
    let mut verdicts = Items::from_vec(Vec::with_capacity(alloc, task.groups() as usize)?);
    for group in 0..task.groups() {
        verdicts.push(before_operators(layered, task.group(group)))?;
    }
    Ok(verdicts)
}

/// Returns whether one of the verdicts is `Exclusive`.
fn some_exclusive(verdicts: &[Verdict]) -> bool
    ensures { IsFalse result → All (λ (verdict : Verdict). verdict ≢ Exclusive) verdicts.now }
{
    verdicts
        .iter()
        .any(|verdict| *verdict == Verdict::Exclusive)
}

/// Finds, for each removed group, the first operator that doesn't keep it, assuming the greatest family and the group itself. The
/// family must be the greatest one.
fn find_breaking<T: Grounded>(
    indexed: &IndexedTask<'_, '_, T>,
    keeping: &mut Keeping,
    found: &mut GroupVerdicts,
)
    requires greatest { IsGreatest indexed.now (family_of keeping.old.family.kept) }
    requires first { AreFirstVerdicts indexed.now found.old.verdicts }
    requires idle { IsIdle indexed.now keeping.old }
    ensures verdicts { AreJointVerdicts indexed.now found.new.verdicts }
    ensures failures { AreFailures indexed.now found.new.verdicts found.new.failures }
    ensures as_many { length found.new.failures ≡ length found.old.failures }
{
    let groups = indexed.task.groups();
    // Usually no group is left.
    let kept = keeping.family.kept.as_slice();
    if !some_fell(groups, kept, found.verdicts.as_slice()) {
        return;
    }
    for operator in 0..indexed.task.operators() {
        find_broken_by(indexed, operator, keeping, found);
    }
}

/// Returns whether one of the groups was removed and no operator that breaks it was found yet.
fn some_fell(groups: u32, kept: &[bool], verdicts: &[Verdict]) -> bool
    requires kept { groups ≡ length kept.now }
    requires verdicts { groups ≡ length verdicts.now }
    ensures { IsFalse result
        → (place : ℕ) → place < groups → IsUndecided kept.now verdicts.now place → ⊥ }
{
    for group in 0..groups {
        if is_undecided(group, kept, verdicts) {
            return true;
        }
    }
    false
}

/// Finds whether the operator breaks any removed groups for which no such operator was found yet.
fn find_broken_by<T: Grounded>(
    indexed: &IndexedTask<'_, '_, T>,
    operator: u32,
    keeping: &mut Keeping,
    found: &mut GroupVerdicts,
)
    requires operator { operator < length indexed.now.operators }
    requires verdicts { AreFoundSoFar indexed.now operator 0 keeping.old.family found.old }
    requires idle { IsIdle indexed.now keeping.old }
    ensures verdicts { AreFoundSoFar indexed.now (operator + 1) 0 keeping.new.family found.new }
    ensures as_many { length found.new.failures ≡ length found.old.failures }
    ensures idle { IsIdle indexed.now keeping.new }
{
    for effect in 0..indexed.task.effects(operator) {
        let firing = FiringEffect::new(indexed, operator, effect);
        find_broken_by_effect(&firing, keeping, found);
    }
}

/// Finds whether the effect breaks any removed groups for which no operator that breaks them was found yet. The known facts of the effect
/// are recorded once for all groups. If they clash, the effect never fires.
fn find_broken_by_effect<T: Grounded>(
    firing: &FiringEffect<'_, '_, T>,
    keeping: &mut Keeping,
    found: &mut GroupVerdicts,
)
    requires verdicts { let f = firing.now in
        AreFoundSoFar f.task f.operator f.effect keeping.old.family found.old }
    requires idle { IsIdle firing.now.task keeping.old }
    ensures verdicts { let f = firing.now in
        AreFoundSoFar f.task f.operator (f.effect + 1) keeping.new.family found.new }
    ensures as_many { length found.new.failures ≡ length found.old.failures }
    ensures idle { IsIdle firing.now.task keeping.new }
{
    let groups = firing.groups();
    let kept = keeping.family.kept.as_slice();
    if !some_undecided(groups, kept, found.verdicts.as_slice()) {
        return;
    }
    if !firing.note(kept, &mut keeping.recorded) {
        decide_groups(firing, groups, keeping, found);
    }
    firing.forget(&mut keeping.recorded);
}

/// Returns whether one of these groups was removed and no operator that breaks it was found yet.
#[inline(always)]
fn some_undecided(groups: &[u32], kept: &[bool], verdicts: &[Verdict]) -> bool
    requires kept { AreBelow (length kept.now) groups.now }
    requires verdicts { AreBelow (length verdicts.now) groups.now }
    ensures { IsFalse result
        → All (λ (place : ℕ). IsUndecided kept.now verdicts.now place → ⊥) groups.now }
{
    groups
        .iter()
        .any(|group| is_undecided(*group, kept, verdicts))
}

/// Returns whether the group was removed and no operator that breaks it was found yet.
#[inline(always)]
fn is_undecided(group: u32, kept: &[bool], verdicts: &[Verdict]) -> bool
    requires kept { group < length kept.now }
    requires verdicts { group < length verdicts.now }
    ensures { IsTrue result ↔ IsUndecided kept.now verdicts.now group }
{
    verdicts[group as usize] == Verdict::Exclusive && !kept[group as usize]
}

/// Finds for each of these groups whether the effect breaks it, if it was removed and no operator that breaks it was found yet. The groups
/// must contain the fact that the effect sets, and the known facts must be recorded.
fn decide_groups<T: Grounded>(
    firing: &FiringEffect<'_, '_, T>,
    groups: &[u32],
    keeping: &mut Keeping,
    found: &mut GroupVerdicts,
)
    requires have { All (λ (place : ℕ). HasFact firing.now.task place
        (sets (effect_of firing.now))) groups.now }
    requires verdicts { let f = firing.now in
        AreFoundSoFar f.task f.operator f.effect keeping.old.family found.old }
    requires at_effect { IsAtEffect firing.now keeping.old }
    ensures verdicts { let f = firing.now in
        AreFoundSoFar f.task f.operator f.effect keeping.new.family found.new }
    ensures as_many { length found.new.failures ≡ length found.old.failures }
    ensures these { let kept = keeping.new.family.kept in
        All (ConsidersAt firing.now kept found.new.verdicts) groups.now }
    ensures at_effect { IsAtEffect firing.now keeping.new }
{
    for group in groups {
        decide_group(firing, *group, keeping, found);
    }
}

/// Finds whether the effect breaks the group, if it was removed and no operator that breaks it was found yet. The group must contain the
/// fact that the effect sets, and the known facts must be recorded.
fn decide_group<T: Grounded>(
    firing: &FiringEffect<'_, '_, T>,
    group: u32,
    keeping: &mut Keeping,
    found: &mut GroupVerdicts,
)
    requires has { HasFact firing.now.task group (sets (effect_of firing.now)) }
    requires verdicts { let f = firing.now in
        AreFoundSoFar f.task f.operator f.effect keeping.old.family found.old }
    requires at_effect { IsAtEffect firing.now keeping.old }
    ensures verdicts { let f = firing.now in
        AreFoundSoFar f.task f.operator f.effect keeping.new.family found.new }
    ensures as_many { length found.new.failures ≡ length found.old.failures }
    ensures this { ConsidersAt firing.now keeping.new.family.kept found.new.verdicts group }
    ensures others { (place : ℕ) → place ≢ group
        → verdict_at found.new.verdicts place ≡ verdict_at found.old.verdicts place }
    ensures kept { keeping.new.family.kept ≡ keeping.old.family.kept }
    ensures at_effect { IsAtEffect firing.now keeping.new }
{
    let kept = keeping.family.kept.as_slice();
    if is_undecided(group, kept, found.verdicts.as_slice())
        && !keeping.keeps_removed(firing, group)
    {
        let operator = firing.operator;
        let broken = Verdict::Broken { operator };
        found.verdicts.set(group as usize, broken);
        note_failure(firing, group, keeping, &mut found.failures);
    }
}

/// Notes the first failure of the effect to keep the group, if failures are wanted. The group must contain the fact that the effect sets,
/// the effect must not keep it, and the known facts must be recorded.
fn note_failure<T: Grounded>(
    firing: &FiringEffect<'_, '_, T>,
    group: u32,
    keeping: &mut Keeping,
    failures: &mut Items<Option<Failure>>,
)
    requires has { HasFact firing.now.task group (sets (effect_of firing.now)) }
    requires broken { EffectKeepsGroupWithItself firing.now keeping.old.family.kept group → ⊥ }
    requires at_effect { IsAtEffect firing.now keeping.old }
    ensures noted { group < length failures.old → IsSomeAnd (failure_at failures.new group)
        (IsFirstOfEffectAt firing.now keeping.old.family.kept group) }
    ensures as_many { length failures.new ≡ length failures.old }
    ensures others { (place : ℕ) → place ≢ group
        → failure_at failures.new place ≡ failure_at failures.old place }
    ensures family { keeping.new.family ≡ keeping.old.family }
    ensures at_effect { IsAtEffect firing.now keeping.new }
{
    if (group as usize) < failures.len() {
        let kept = &mut keeping.family.kept;
        let failure = first_failure(firing, group, kept, &mut keeping.recorded);
        failures.set(group as usize, Some(failure));
    }
}
