// Removes the groups from the family that an operator doesn't keep.
ghost use Rattle.std.specs.Prelude.{◌≡◌, ◌<◌, ◌↔◌, [], length, Contains, IsTrue, IfOk};
ghost use Rattle.sas_core.specs.Grounded.{operator_at, group_at};
ghost use Rattle.sas_groups.specs.Clashes.{sets};
ghost use Rattle.sas_groups.specs.Families.{IsIn};
ghost use Rattle.sas_mutex.specs.Kept.{family_of};
ghost use Rattle.sas_mutex.specs.Effects.{IsUnconditional, effect_of};
ghost use Rattle.sas_mutex.specs.ByNotes.{EffectKeepsGroup, EffectKeepsGroupWithItself};
ghost use Rattle.sas_mutex.specs.Basis.{HasGrown};
ghost use Rattle.sas_mutex.specs.Falling.{AreCandidates};
ghost use Rattle.sas_mutex.specs.VerdictsSoFar.{AreFirstVerdicts};
ghost use Rattle.sas_mutex.specs.Looking.{IsIdle, IsAtEffect, Looked, IsPair, IsOfEffect, IsOfOperator, IsOfAlike};

use crate::effects::FiringEffect;
use crate::family::Family;
use crate::indexed::IndexedTask;
use crate::recorded::Recorded;
use sas_core::Grounded;
use sas_groups::Verdict;
use std::alloc::{AllocError, Global};

/// A family, and what is recorded of the effect that is looked at, to find which groups of the family operators keep.
#[derive(Drop)]
pub struct Keeping {
    pub family: Family,
    pub recorded: Recorded,
}

impl Keeping {
    /// Returns the family of all groups that may be exclusive, by the verdicts before operators are looked at, with nothing recorded.
    pub fn new<T: Grounded>(
        alloc: Global,
        indexed: &IndexedTask<'_, '_, T>,
        verdicts: &[Verdict],
    ) -> Result<Keeping, AllocError>
        requires { AreFirstVerdicts indexed.now verdicts.now }
        ensures idle { IfOk result (λ keeping. IsIdle indexed.now keeping) }
        ensures candidates { IfOk result
            (λ keeping. AreCandidates indexed.now keeping.family.kept) }
        ensures none { IfOk result (λ keeping. keeping.family.fallen.items ≡ []) }
    {
        let recorded = Recorded::new(alloc, indexed)?;
        let family = Family::new(alloc, verdicts)?;
        Ok(Keeping { family, recorded })
    }

    /// Removes the groups from the family that the operator doesn't keep. Returns true only if it keeps each remaining group, assuming
    /// only the basis and that group. All effects without conditions are looked at together, since they have the same known facts.
    pub fn look_at<T: Grounded>(&mut self, indexed: &IndexedTask<'_, '_, T>, operator: u32) -> bool
        requires operator { operator < length indexed.now.operators }
        requires idle { IsIdle indexed.now self.old }
        ensures idle { IsIdle indexed.now self.new }
        ensures looked { Looked indexed.now operator (IsOfOperator indexed.now operator)
            self.old.family self.new.family result }
    {
        let mut alone = true;
        let mut did_plain = false;
        for effect in 0..indexed.task.effects(operator) {
            let plain = is_plain(indexed, operator, effect);
            if did_plain && plain {
                continue;
            }
            let firing = FiringEffect::new(indexed, operator, effect);
            // If no group of the family contains the fact that the effect sets, nothing is recorded.
            if firing.sets_one_of(self.family.kept.as_slice()) {
                alone &= self.look_at_alike(&firing);
                did_plain |= plain;
            }
        }
        alone
    }

    /// Removes the groups from the family that the effect doesn't keep, or, if the effect has no conditions, those that any such effect of
    /// its operator doesn't keep. Returns true only if these effects keep each remaining group, assuming only the basis and that group.
    fn look_at_alike<T: Grounded>(&mut self, firing: &FiringEffect<'_, '_, T>) -> bool
        requires { IsIdle firing.now.task self.old }
        ensures idle { IsIdle firing.now.task self.new }
        ensures looked { let f = firing.now in
            Looked f.task f.operator (IsOfAlike f) self.old.family self.new.family result }
    {
        if self.look_where_they_fire(firing) {
            return true;
        }
        let clash = firing.note(self.family.basis.as_slice(), &mut self.recorded);
        firing.forget(&mut self.recorded);
        clash
    }

    /// `look_at_alike` without the case that an effect never fires, assuming the basis. The known facts are the same for all these effects,
    /// and are recorded once for all groups. If they clash, none of the effects ever fires.
    fn look_where_they_fire<T: Grounded>(&mut self, firing: &FiringEffect<'_, '_, T>) -> bool
        requires { IsIdle firing.now.task self.old }
        ensures idle { IsIdle firing.now.task self.new }
        ensures looked { let f = firing.now in
            Looked f.task f.operator (IsOfAlike f) self.old.family self.new.family result }
    {
        let mut alone = false;
        self.recorded.deciding.clear();
        if !firing.note(self.family.kept.as_slice(), &mut self.recorded) {
            alone = self.look_at_noted(firing);
        } else {
            let deciders = self.recorded.deciding.groups();
            self.family.grow_basis(deciders.as_slice());
        }
        firing.forget(&mut self.recorded);
        alone
    }

    /// `look_where_they_fire` after the known facts were recorded. They must not clash.
    fn look_at_noted<T: Grounded>(&mut self, firing: &FiringEffect<'_, '_, T>) -> bool
        requires { IsAtEffect firing.now self.old }
        ensures at_effect { IsAtEffect firing.now self.new }
        ensures looked { let f = firing.now in
            Looked f.task f.operator (IsOfAlike f) self.old.family self.new.family result }
    {
        let indexed = IndexedTask {
            task: firing.task,
            index: firing.index,
        };
        if !is_plain(&indexed, firing.operator, firing.effect) {
            return self.look_at_groups(firing);
        }
        let mut alone = true;
        for effect in 0..firing.task.effects(firing.operator) {
            if is_plain(&indexed, firing.operator, effect) {
                let alike = FiringEffect::new(&indexed, firing.operator, effect);
                alone &= self.look_at_groups(&alike);
            }
        }
        alone
    }

    /// `look_where_they_fire` for this effect alone, after the known facts were recorded. They must not clash.
    fn look_at_groups<T: Grounded>(&mut self, firing: &FiringEffect<'_, '_, T>) -> bool
        requires { IsAtEffect firing.now self.old }
        ensures at_effect { IsAtEffect firing.now self.new }
        ensures looked { let f = firing.now in
            Looked f.task f.operator (IsOfEffect f.effect) self.old.family self.new.family result }
    {
        let mut alone = true;
        let groups = firing.groups();
        for group in groups {
            alone &= self.look_at_group(firing, *group);
        }
        alone
    }

    /// Removes the group from the family if the effect doesn't keep it. The known facts must be recorded and must not clash. Returns true
    /// only if the effect keeps the group, assuming only the basis and the group, or if the group isn't in the family any more. What is
    /// kept under these assumptions is kept in every family that contains these groups.
    #[inline(always)]
    fn look_at_group<T: Grounded>(&mut self, firing: &FiringEffect<'_, '_, T>, group: u32) -> bool
        requires group { group < length firing.now.task.groups }
        requires has { Contains (group_at firing.now.task group) (sets (effect_of firing.now)) }
        requires at_effect { IsAtEffect firing.now self.old }
        ensures at_effect { IsAtEffect firing.now self.new }
        ensures looked { let f = firing.now in Looked f.task f.operator (IsPair f.effect group)
            self.old.family self.new.family result }
    {
        // For the proof: accessing a field makes the invariant of the effect available.
        let _ = &firing.task;
        if !self.family.kept.as_slice()[group as usize] {
            return true;
        }
        if self.keeps_by_basis(firing, group) {
            return true;
        }
        if self.keeps_by_excluding(firing, group) {
            self.family.grow_basis(None);
            return false;
        }
        self.recorded.deciding.clear();
        if firing.keeps_by_notes(self.family.kept.as_slice(), group, &mut self.recorded) {
            return self.keeps_by_more(firing, group);
        }
        self.family.take_away(group);
        true
    }

    /// Returns true only if the effect keeps the group since a fact excludes its other facts, as was found before.
    #[inline(never)]
    fn keeps_by_excluding<T: Grounded>(
        &mut self,
        firing: &FiringEffect<'_, '_, T>,
        group: u32,
    ) -> bool
        requires group { group < length firing.now.task.groups }
        requires at_effect { IsAtEffect firing.now self.old }
        ensures yes { IsTrue result → EffectKeepsGroup firing.now self.old.family.kept group }
        ensures same { self.new.family ≡ self.old.family }
        ensures at_effect { IsAtEffect firing.now self.new }
    {
        let family = &self.family;
        let recorded = &mut self.recorded;
        for excluding in family.excluding.as_slice() {
            if firing.keeps_by(excluding, family.kept.as_slice(), group, recorded) {
                return true;
            }
        }
        false
    }

    /// Adds the groups that were used in the last test to the basis. Returns true only if the effect then keeps the group, assuming only
    /// the basis and the group itself. If they are too many, a fact that excludes others is noted instead.
    #[inline(never)]
    fn keeps_by_more<T: Grounded>(&mut self, firing: &FiringEffect<'_, '_, T>, group: u32) -> bool
        requires group { group < length firing.now.task.groups }
        requires at_effect { IsAtEffect firing.now self.old }
        ensures basis { IsTrue result
            → EffectKeepsGroupWithItself firing.now self.new.family.basis group }
        ensures grown { HasGrown self.old.family self.new.family }
        ensures at_effect { IsAtEffect firing.now self.new }
    {
        let deciders = self.recorded.deciding.groups();
        self.family.grow_basis(deciders.as_slice());
        if !self.family.is_short {
            return self.keeps_by_basis(firing, group);
        }
        self.note_excluding(firing, group);
        false
    }

    /// Notes the fact set apart if it excludes all facts of the group, but perhaps those on the variable of the effect. The known facts must
    /// be recorded and must not clash.
    #[inline(always)]
    fn note_excluding<T: Grounded>(&mut self, firing: &FiringEffect<'_, '_, T>, group: u32)
        requires group { group < length firing.now.task.groups }
        requires at_effect { IsAtEffect firing.now self.old }
        ensures grown { HasGrown self.old.family self.new.family }
        ensures at_effect { IsAtEffect firing.now self.new }
    {
        if let Some(found) = firing.excluding(self.family.kept.as_slice(), group, &self.recorded) {
            self.family.note_excluding(found);
        }
    }

    /// Returns whether the effect keeps the group, which may be removed, assuming the family and the group itself. The known facts must be
    /// recorded and must not clash. If many groups were used in the test, a fact that excludes others is noted.
    pub fn keeps_removed<T: Grounded>(
        &mut self,
        firing: &FiringEffect<'_, '_, T>,
        group: u32,
    ) -> bool
        requires group { group < length firing.now.task.groups }
        requires at_effect { IsAtEffect firing.now self.old }
        ensures is { IsTrue result
            ↔ EffectKeepsGroupWithItself firing.now self.old.family.kept group }
        ensures kept { self.new.family.kept ≡ self.old.family.kept }
        ensures at_effect { IsAtEffect firing.now self.new }
    {
        if self.keeps_by_excluding(firing, group) {
            return true;
        }
        self.recorded.deciding.clear();
        let keeps = firing.keeps_with_itself(group, &mut self.family.kept, &mut self.recorded);
        if keeps && self.recorded.deciding.groups().as_slice().is_none() {
            self.note_excluding(firing, group);
        }
        keeps
    }

    /// Returns true only if all groups of the basis are in the family and the effect keeps the group, assuming only these groups and the
    /// group itself. The family is unchanged on return.
    #[inline(always)]
    fn keeps_by_basis<T: Grounded>(&mut self, firing: &FiringEffect<'_, '_, T>, group: u32) -> bool
        requires group { group < length firing.now.task.groups }
        requires at_effect { IsAtEffect firing.now self.old }
        ensures kept { IsTrue result → IsIn firing.now.task (family_of self.old.family.kept) group
            → EffectKeepsGroup firing.now self.old.family.kept group }
        ensures basis { IsTrue result
            → EffectKeepsGroupWithItself firing.now self.old.family.basis group }
        ensures same { self.new.family ≡ self.old.family }
        ensures at_effect { IsAtEffect firing.now self.new }
    {
        self.family.has_basis()
            && firing.keeps_with_itself(group, &mut self.family.basis, &mut self.recorded)
    }
}

/// Returns whether the effect has no conditions.
#[inline(always)]
fn is_plain<T: Grounded>(indexed: &IndexedTask<'_, '_, T>, operator: u32, effect: u32) -> bool
    requires operator { operator < length indexed.now.operators }
    requires effect { effect < length (operator_at indexed.now operator).effects }
    ensures { IsTrue result ↔ IsUnconditional indexed.now operator effect }
{
    indexed.task.effect_conditions(operator, effect).is_empty()
}
