// Which groups an effect keeps.
ghost use Rattle.std.specs.Prelude.{◌≡◌, ◌<◌, ◌↔◌, ℕ, Bool, List, length, IsTrue, IsFalse, IfSome, All, Contains};
ghost use Rattle.std.specs.List.{Any};
ghost use Rattle.sas_core.specs.Grounded.{operator_at, effect_at, group_at};
ghost use Rattle.sas_core.specs.Changes.{fact_of, plain_effects};
ghost use Rattle.sas_core.specs.Variables.{FactExists};
ghost use Rattle.sas_groups.specs.Clashes.{Contradict, Removes, sets};
ghost use Rattle.sas_groups.specs.Families.{IsIn};
ghost use Rattle.sas_mutex.specs.ByFact.{HasFactBeside};
ghost use Rattle.sas_mutex.specs.ByVariable.{AreOn};
ghost use Rattle.sas_mutex.specs.Index.{groups_of};
ghost use Rattle.sas_groups.specs.Lists.{known_left};
ghost use Rattle.sas_mutex.specs.Runs.{AreOnOne};
ghost use Rattle.sas_mutex.specs.Kept.{family_of, IsKept};
ghost use Rattle.sas_mutex.specs.Effects.{operator_of, effect_of};
ghost use Rattle.sas_mutex.specs.Notes.{IsWide, IsGroupNote};
ghost use Rattle.sas_mutex.specs.ByNotes.{IsMet, SomeRemoves, known_at};
ghost use Rattle.sas_mutex.specs.ByNotes.{IsNotedAt, EffectKeepsGroup, EffectKeepsGroupWithItself, BothClashAt, NotBothAt};
ghost use Rattle.sas_mutex.specs.ByNotes.{ClashesAt, SharesBesideAt};
ghost use Rattle.sas_mutex.specs.ByNotes.{HasNoPartnerAt, IsSingleOn, BeginsRun, IsOnVariableBefore, SetsBeside, SetsOtherValue};
ghost use Rattle.sas_mutex.specs.ByNotes.{IsGoneAt, AreGoneAt, IsUnknownAt, IsDecidedByFirst, NeverFires};
ghost use Rattle.sas_mutex.specs.Basis.{SetsNone, Excludes};
ghost use Rattle.sas_mutex.specs.Recorded.{IsClean, IsNotedFrom};

use crate::family::Excluding;
use crate::index::Index;
use crate::indexed::IndexedTask;
use crate::notes::{
    GroupNote, Notes, forget, has_noted, note, set_apart, shares_apart, some_has, wider,
};
use crate::recorded::{Recorded, facts_clash};
use sas_core::{Change, Fact, Grounded, Items};
use sas_groups::{Known, Premises};
use sas_meaning::Layered;
use std::marker::Model;

/// An effect of an operator of a task, with the index of the task's groups. Its methods are about a step in which the effect fires. The
/// known facts of the effect are the preconditions of its operator and its own conditions. In a contract its value is the task and the
/// indexes of the operator and the effect, which exist. The index is that of the task.
#[derive(Drop)]
pub struct FiringEffect<'a, 'b, T: Grounded> {
    pub task: &'a Layered<T>,
    pub index: &'b Index,
    pub operator: u32,
    pub effect: u32,
    /// The change that the effect makes.
    change: Change,
}

impl<'a, 'b, T: Grounded> Model for FiringEffect<'a, 'b, T> {
    ghost use Rattle.std.specs.Prelude.{◌≡◌, ◌<◌, length};
    ghost use Rattle.sas_core.specs.Changes.{change_of};
    ghost use Rattle.sas_core.specs.Grounded.{operator_at, effect_at, group_at};
    ghost use Rattle.sas_core.specs.WellRanged.{WellRanged};
    ghost use Rattle.sas_mutex.specs.Index.{IsIndexOf};
    ghost use Rattle.sas_mutex.specs.Effects.{EffectPlace};

    ghost Value = { EffectPlace };

    ghost view = { λ f. record { task = f.task.now; operator = f.operator; effect = f.effect } };

    ghost invariant = { λ f. WellRanged f.task.now
        × IsIndexOf f.task.now f.index.now
        × (f.operator < length f.task.now.operators)
        × (f.effect < length (operator_at f.task.now f.operator).effects)
        × (f.change ≡ change_of (effect_at (operator_at f.task.now f.operator) f.effect)) };
}

impl<'a, 'b, T: Grounded> FiringEffect<'a, 'b, T> {
    /// Returns the effect of the operator.
    #[inline(always)]
    pub fn new(
        indexed: &IndexedTask<'a, 'b, T>,
        operator: u32,
        effect: u32,
    ) -> FiringEffect<'a, 'b, T>
        requires operator { operator < length indexed.now.operators }
        requires effect { effect < length (operator_at indexed.now operator).effects }
        ensures { result ≡ record { task = indexed.now; operator = operator; effect = effect } }
    {
        FiringEffect {
            task: indexed.task,
            index: indexed.index,
            operator,
            effect,
            change: indexed.task.effect_change(operator, effect),
        }
    }

    /// Returns all effects of a large operator that set the variable, and possibly others. Returns `None` if the operator isn't large.
    #[inline(always)]
    pub fn effects_on(&self, var: u32) -> Option<&'b [u32]>
        ensures { let f = self.now in
            IfSome result (λ effects. AreOn f.task f.operator var effects.now) }
    {
        let indexed = IndexedTask {
            task: self.task,
            index: self.index,
        };
        indexed.effects_on(self.operator, var)
    }

    /// Returns the groups that contain the fact that the effect sets and another one. The effect keeps all others.
    #[inline(always)]
    pub fn groups(&self) -> &'b [u32]
        ensures { let f = self.now in (place : ℕ)
            → Contains result.now place ↔ HasFactBeside f.task place (sets (effect_of f)) }
    {
        self.index.larger_groups_of(self.change.fact())
    }

    /// Returns whether a group of the family contains the fact that the effect sets and another one.
    #[inline(always)]
    pub fn sets_one_of(&self, kept: &[bool]) -> bool
        requires { length kept.now ≡ length self.now.task.groups }
        ensures { let f = self.now in
            IsFalse result → SetsNone f.task kept.now f.operator f.effect }
    {
        for group in self.groups() {
            if kept[*group as usize] {
                return true;
            }
        }
        false
    }

    /// Records the known facts and returns whether they clash, so that the effect never fires. If they do, not all of them are recorded. A
    /// known fact that many groups contain may be set apart.
    #[inline(always)]
    pub fn note(&self, kept: &[bool], recorded: &mut Recorded) -> bool
        requires one_each { length kept.now ≡ length self.now.task.groups }
        requires clean { IsClean self.now.task recorded.old }
        ensures yes { IsTrue result → NeverFires self.now kept.now }
        ensures notes { IsFalse result → IsNotedAt self.now kept.now recorded.new }
        ensures from { let f = self.now in
            IsNotedFrom f.task (known_at f.task f.operator f.effect) recorded.new }
    {
        let widest = self.widest_known(recorded.known.some_wide);
        // All effects are visited to find the preconditions.
        recorded.known.spread = self.task.effects(self.operator) as usize;
        set_apart(widest, &mut recorded.known);
        for fact in self.known() {
            if !note(
                self.index,
                kept,
                fact,
                &mut recorded.known,
                &recorded.deciding,
            ) {
                return true;
            }
        }
        false
    }

    /// Removes what is recorded for the known facts.
    #[inline(always)]
    pub fn forget(&self, recorded: &mut Recorded)
        requires from { let f = self.now in
            IsNotedFrom f.task (known_at f.task f.operator f.effect) recorded.old }
        ensures { IsClean self.now.task recorded.new }
    {
        for fact in self.known() {
            forget(self.index, fact, &mut recorded.known);
        }
        recorded.known.apart = None;
        recorded.known.spread = 0;
    }

    /// Returns the known fact with the most groups among those with many groups. Returns `None` if there is none, or if `some_wide` is
    /// false.
    fn widest_known(&self, some_wide: bool) -> Option<Fact>
        ensures { let f = self.now in
            IfSome result (Contains (known_at f.task f.operator f.effect)) }
    {
        if !some_wide {
            return None;
        }
        let mut widest = None;
        for fact in self.known() {
            widest = wider(self.index, fact, widest);
        }
        widest
    }

    /// Returns an iterator over the known facts.
    #[inline(always)]
    fn known(&self) -> Known<'a, 'a, T>
        ensures { let f = self.now in known_left result ≡ known_at f.task f.operator f.effect }
    {
        let premises = Premises {
            operator: self.operator,
            first: self.task.effect_conditions(self.operator, self.effect),
            second: &[],
        };
        Known::new(self.task, &premises)
    }

    /// Returns whether the effect keeps the group, which must be in the family. The known facts must be recorded and must not clash.
    #[inline(always)]
    pub fn keeps_by_notes(&self, kept: &[bool], group: u32, recorded: &mut Recorded) -> bool
        requires notes { IsNotedAt self.now kept.now recorded.old }
        requires group { IsIn self.now.task (family_of kept.now) group }
        ensures notes { IsNotedAt self.now kept.now recorded.new }
        ensures is { IsTrue result ↔ EffectKeepsGroup self.now kept.now group }
    {
        self.is_single(kept, group, recorded) && self.removes_others(kept, group, recorded)
    }

    /// Returns true only if the effect keeps the group since the fact excludes all others, as noted. The known facts must be recorded and
    /// must not clash.
    #[inline(always)]
    pub(crate) fn keeps_by(
        &self,
        excluding: &Excluding,
        kept: &[bool],
        group: u32,
        recorded: &mut Recorded,
    ) -> bool
        requires notes { IsNotedAt self.now kept.now recorded.old }
        requires group { group < length self.now.task.groups }
        requires excludes { Excludes self.now.task kept.now excluding.now }
        ensures notes { IsNotedAt self.now kept.now recorded.new }
        ensures yes { IsTrue result → EffectKeepsGroup self.now kept.now group }
    {
        if !excluding.is_for(group, self.change.var) || !recorded.known.is_apart(excluding.fact) {
            return false;
        }
        self.is_single(kept, group, recorded)
    }

    /// Returns the fact set apart if it excludes all facts of the group, but perhaps those on the variable of the effect. The known facts
    /// must be recorded and must not clash.
    pub(crate) fn excluding(
        &self,
        kept: &[bool],
        group: u32,
        recorded: &Recorded,
    ) -> Option<Excluding>
        requires notes { IsNotedAt self.now kept.now recorded.now }
        requires group { group < length self.now.task.groups }
        ensures { IfSome result (Excludes self.now.task kept.now) }
    {
        let Some(fact) = recorded.known.apart else {
            return None;
        };
        let mut var = None;
        for other in self.index.facts_of(self.task, group) {
            if !self.excludes(kept, fact, *other, recorded) {
                if other.var != self.change.var {
                    return None;
                }
                var = Some(other.var);
            }
        }
        Some(Excluding { fact, group, var })
    }

    /// Returns true only if both facts contradict each other, assuming the family.
    fn excludes(&self, kept: &[bool], fact: Fact, other: Fact, recorded: &Recorded) -> bool
        requires fact { FactExists self.now.task.variables fact }
        requires other { FactExists self.now.task.variables other }
        ensures { IsTrue result → Contradict (IsKept self.now.task kept.now) fact other }
    {
        // For the proof: accessing a field makes the invariant of the effect available.
        let _ = &self.task;
        if other == fact {
            return false;
        }
        some_has(self.index, kept, other, fact, &recorded.deciding)
    }

    /// Returns whether the effect keeps the group, assuming the family and the group itself. The known facts must be recorded and must
    /// not clash. The family is unchanged on return.
    #[inline(always)]
    pub fn keeps_with_itself(
        &self,
        group: u32,
        kept: &mut Items<bool>,
        recorded: &mut Recorded,
    ) -> bool
        requires notes { IsNotedAt self.now kept.old recorded.old }
        requires group { group < length self.now.task.groups }
        ensures is { IsTrue result ↔ EffectKeepsGroupWithItself self.now kept.old group }
        ensures kept { kept.new ≡ kept.old }
        ensures notes { IsNotedAt self.now kept.old recorded.new }
    {
        // Two different facts of the group are known. Since the group is assumed to be exclusive, the effect never fires.
        if self.noted(group, recorded).is_several() {
            return true;
        }
        let counts = kept.as_slice()[group as usize];
        kept.set(group as usize, true);
        let keeps = self.keeps_by_notes(kept.as_slice(), group, recorded);
        kept.set(group as usize, counts);
        keeps
    }

    /// Returns which of the known facts the group contains.
    #[inline(always)]
    pub fn noted(&self, group: u32, recorded: &Recorded) -> GroupNote
        requires wide { IsWide self.now.task recorded.now.known }
        requires group { group < length self.now.task.groups }
        ensures { let f = self.now in (kept : List Bool) → IsNotedAt f kept recorded.now
            → IsGroupNote f.task (known_at f.task f.operator f.effect) group result }
    {
        recorded.known.noted(self.index, group)
    }

    /// Returns whether no effect that may fire together with this one sets another fact of the group on another variable. For a large
    /// operator, no effect is looked at if the group has no other variable, and only effects on variables of the group are if the group has
    /// fewer facts than the operator has effects.
    #[inline(always)]
    fn is_single(&self, kept: &[bool], group: u32, recorded: &mut Recorded) -> bool
        requires notes { IsNotedAt self.now kept.now recorded.old }
        requires group { group < length self.now.task.groups }
        ensures notes { IsNotedAt self.now kept.now recorded.new }
        ensures is { IsTrue result ↔ HasNoPartnerAt self.now kept.now group }
    {
        if self.is_large() {
            if self.is_on_own_variable(group) {
                return true;
            }
            if self.has_more_effects(group) {
                return self.is_single_by_facts(kept, group, recorded);
            }
        }
        match self.task.plain_changes(self.operator) {
            Some(changes) => self.is_single_of_changes(kept, group, changes, recorded),
            None => self.is_single_of_all(kept, group, recorded),
        }
    }

    /// `is_single` for an operator without conditional effects.
    #[inline(always)]
    fn is_single_of_changes(
        &self,
        kept: &[bool],
        group: u32,
        changes: &[Change],
        recorded: &Recorded,
    ) -> bool
        requires notes { IsNotedAt self.now kept.now recorded.now }
        requires group { group < length self.now.task.groups }
        requires plain { (operator_of self.now).effects ≡ plain_effects changes.now }
        ensures { IsTrue result ↔ HasNoPartnerAt self.now kept.now group }
    {
        // For the proof: accessing a field makes the invariant of the effect available.
        let _ = &self.task;
        for change in changes {
            if self.sets_beside(*change, group) {
                return false;
            }
        }
        true
    }

    /// Returns whether the operator is large. The index only contains the effects of large operators.
    #[inline(always)]
    fn is_large(&self) -> bool {
        self.effects_on(0).is_some()
    }

    /// Returns true only if all facts of the group are on the variable of the effect.
    fn is_on_own_variable(&self, group: u32) -> bool
        requires { group < length self.now.task.groups }
        ensures { let f = self.now in IsTrue result → (fact : Fact)
            → Contains (group_at f.task group) fact → fact.var ≡ (effect_of f).var }
    {
        match self.index.facts_of(self.task, group) {
            [first, ..] => {
                first.var == self.change.var
                    && self.index.runs.as_slice()[group as usize].len() == 1
            }
            [] => false,
        }
    }

    /// Returns whether the operator is large and has more effects than the group has facts.
    #[inline(always)]
    pub fn has_more_effects(&self, group: u32) -> bool
        requires { group < length self.now.task.groups }
    {
        let facts = self.index.facts_of(self.task, group);
        self.is_large() && facts.len() < self.task.effects(self.operator) as usize
    }

    /// `is_single` by looking at all effects.
    #[inline(always)]
    fn is_single_of_all(&self, kept: &[bool], group: u32, recorded: &mut Recorded) -> bool
        requires notes { IsNotedAt self.now kept.now recorded.old }
        requires group { group < length self.now.task.groups }
        ensures notes { IsNotedAt self.now kept.now recorded.new }
        ensures is { IsTrue result ↔ HasNoPartnerAt self.now kept.now group }
    {
        for other in 0..self.task.effects(self.operator) {
            if !self.not_both(kept, other, group, recorded) {
                return false;
            }
        }
        true
    }

    /// `is_single` by looking at the effects on each variable of the group. The facts of the group are sorted, so facts on the same
    /// variable are adjacent.
    #[inline(never)]
    fn is_single_by_facts(&self, kept: &[bool], group: u32, recorded: &mut Recorded) -> bool
        requires notes { IsNotedAt self.now kept.now recorded.old }
        requires group { group < length self.now.task.groups }
        ensures notes { IsNotedAt self.now kept.now recorded.new }
        ensures is { IsTrue result ↔ HasNoPartnerAt self.now kept.now group }
    {
        let facts = self.index.facts_of(self.task, group);
        for place in 0..facts.len() {
            if begins_run(facts, place)
                && !self.is_single_on(kept, group, facts[place].var, recorded)
            {
                return false;
            }
        }
        true
    }

    /// Returns whether no effect on variable `var` that may fire together with this one sets another fact of the group on another variable.
    fn is_single_on(&self, kept: &[bool], group: u32, var: u32, recorded: &mut Recorded) -> bool
        requires notes { IsNotedAt self.now kept.now recorded.old }
        requires group { group < length self.now.task.groups }
        ensures notes { IsNotedAt self.now kept.now recorded.new }
        ensures yes { IsTrue result → IsSingleOn self.now kept.now group var }
        ensures no { IsFalse result → HasNoPartnerAt self.now kept.now group → ⊥ }
    {
        let Some(effects) = self.effects_on(var) else {
            return self.is_single_of_all(kept, group, recorded);
        };
        for other in effects {
            if *other < self.task.effects(self.operator)
                && !self.not_both(kept, *other, group, recorded)
            {
                return false;
            }
        }
        true
    }

    /// Returns whether the other effect can't set a fact of the group on another variable in the same step in which this effect fires.
    #[inline(always)]
    pub fn not_both(&self, kept: &[bool], other: u32, group: u32, recorded: &mut Recorded) -> bool
        requires notes { IsNotedAt self.now kept.now recorded.old }
        requires other { other < length (operator_of self.now).effects }
        requires group { group < length self.now.task.groups }
        ensures notes { IsNotedAt self.now kept.now recorded.new }
        ensures is { IsTrue result ↔ NotBothAt self.now kept.now other group }
    {
        let change = self.task.effect_change(self.operator, other);
        !self.sets_beside(change, group) || self.both_clash(kept, other, recorded)
    }

    /// Returns whether the change sets a fact of the group on another variable than this effect.
    #[inline(always)]
    fn sets_beside(&self, change: Change, group: u32) -> bool
        requires fact { let f = self.now in
            FactExists f.task.variables (fact_of change) }
        requires group { group < length self.now.task.groups }
        ensures { IsTrue result ↔ SetsBeside self.now change group }
    {
        self.change.var != change.var && self.index.has(group, change.fact())
    }

    /// Returns whether the known facts of both effects clash, so that they can't fire together. The known facts of this effect don't clash.
    /// So either a condition of the other effect clashes with them, or its conditions clash with each other.
    fn both_clash(&self, kept: &[bool], other: u32, recorded: &mut Recorded) -> bool
        requires notes { IsNotedAt self.now kept.now recorded.old }
        requires other { other < length (operator_of self.now).effects }
        ensures notes { IsNotedAt self.now kept.now recorded.new }
        ensures is { IsTrue result ↔ BothClashAt self.now kept.now other }
    {
        let second = self.task.effect_conditions(self.operator, other);
        if self.some_clashes(kept, second, recorded) {
            return true;
        }
        let indexed = IndexedTask {
            task: self.task,
            index: self.index,
        };
        facts_clash(
            &indexed,
            kept,
            second,
            &mut recorded.others,
            &recorded.deciding,
        )
    }

    /// Returns whether one of these facts clashes with the known facts of this effect.
    fn some_clashes(&self, kept: &[bool], facts: &[Fact], recorded: &Recorded) -> bool
        requires notes { IsNotedAt self.now kept.now recorded.now }
        requires exist { All (FactExists self.now.task.variables) facts.now }
        ensures { IsTrue result ↔ Any (ClashesAt self.now kept.now) facts.now }
    {
        for fact in facts {
            if self.clashes(kept, *fact, recorded) {
                return true;
            }
        }
        false
    }

    /// Returns whether the fact clashes with the known facts of this effect.
    #[inline(always)]
    fn clashes(&self, kept: &[bool], fact: Fact, recorded: &Recorded) -> bool
        requires notes { IsNotedAt self.now kept.now recorded.now }
        requires fact { FactExists self.now.task.variables fact }
        ensures { IsTrue result ↔ ClashesAt self.now kept.now fact }
    {
        // For the proof: accessing a field makes the invariant of the effect available.
        let _ = &self.task;
        match recorded.known.values.as_slice()[fact.var as usize] {
            Some(value) => value != fact.value,
            None => {
                self.shares_beside(kept, fact, recorded)
                    || shares_apart(
                        self.index,
                        kept,
                        fact,
                        recorded.known.apart,
                        &recorded.deciding,
                    )
            }
        }
    }

    /// Returns whether a group of the family contains both the fact and a known fact other than the one set apart. Searches the groups of
    /// the fact, or those of the known facts if they are fewer.
    fn shares_beside(&self, kept: &[bool], fact: Fact, recorded: &Recorded) -> bool
        requires notes { IsNotedAt self.now kept.now recorded.now }
        requires fact { FactExists self.now.task.variables fact }
        ensures { IsTrue result ↔ SharesBesideAt self.now kept.now fact recorded.now.known.apart }
    {
        let groups = self.index.groups_of(fact);
        if groups.len() <= recorded.known.spread {
            let noted = recorded.known.groups.as_slice();
            return has_noted(groups, kept, noted, &recorded.deciding);
        }
        for known in self.known() {
            if !recorded.known.is_apart(known)
                && some_has(self.index, kept, known, fact, &recorded.deciding)
            {
                return true;
            }
        }
        false
    }

    /// Returns whether no other fact of the group can remain when this effect fires. Usually an old value decides this immediately.
    #[inline(always)]
    pub fn removes_others(&self, kept: &[bool], group: u32, recorded: &Recorded) -> bool
        requires notes { IsNotedAt self.now kept.now recorded.now }
        requires group { IsIn self.now.task (family_of kept.now) group }
        ensures { IsTrue result ↔ AreGoneAt self.now kept.now group }
    {
        self.requires_one_of(group) || self.none_stays(kept, group, recorded)
    }

    /// Returns whether the effect requires an old value that is a fact of the group. Then no fact of the group on another variable can have
    /// held before.
    #[inline(always)]
    fn requires_one_of(&self, group: u32) -> bool
        ensures { IsTrue result
            → (kept : List Bool) → IsIn self.now.task (family_of kept) group
            → AreGoneAt self.now kept group }
    {
        match self.change.old {
            Some(value) => {
                let old = Fact {
                    var: self.change.var,
                    value,
                };
                self.index.has(group, old)
            }
            None => false,
        }
    }

    /// `removes_others` by looking at the facts of the group.
    fn none_stays(&self, kept: &[bool], group: u32, recorded: &Recorded) -> bool
        requires notes { IsNotedAt self.now kept.now recorded.now }
        requires group { IsIn self.now.task (family_of kept.now) group }
        ensures { IsTrue result ↔ AreGoneAt self.now kept.now group }
    {
        // For the proof: accessing a field makes the invariant of the effect available.
        let _ = &self.task;
        // If a fact of the group is known, it contradicts all others.
        if let Some(fact) = self.noted(group, recorded).only() {
            return self.is_gone(kept, fact, recorded);
        }
        let mut left = self.index.facts_of(self.task, group);
        for length in self.index.runs.as_slice()[group as usize].as_slice() {
            let (run, rest) = left.split_at(*length as usize);
            if !self.run_is_gone(kept, run, recorded) {
                return false;
            }
            left = rest;
        }
        true
    }

    /// Returns whether none of these facts can remain. They must be on one variable, and none of them may be known. If it is the variable
    /// of the effect, or another value of it is known, no fact needs to be looked at.
    fn run_is_gone(&self, kept: &[bool], run: &[Fact], recorded: &Recorded) -> bool
        requires notes { IsNotedAt self.now kept.now recorded.now }
        requires exist { All (FactExists self.now.task.variables) run.now }
        requires one { AreOnOne run.now }
        requires unknown { All (IsUnknownAt self.now) run.now }
        ensures { IsTrue result ↔ All (IsGoneAt self.now kept.now) run.now }
    {
        // For the proof: accessing a field makes the invariant of the effect available.
        let _ = &self.index;
        if self.is_settled(run, &recorded.known) {
            return true;
        }
        for fact in run {
            if !self.is_gone(kept, *fact, recorded) {
                return false;
            }
        }
        true
    }

    /// Returns whether the first of the facts, if any, is on the variable of the effect, or a value of its variable is known.
    #[inline(always)]
    fn is_settled(&self, run: &[Fact], notes: &Notes) -> bool
        requires { All (λ (f : Fact). f.var < length notes.now.values) run.now }
        ensures { IsTrue result → IsDecidedByFirst (effect_of self.now) run.now notes.now }
    {
        match run.first() {
            Some(first) => {
                self.change.var == first.var
                    || notes.values.as_slice()[first.var as usize].is_some()
            }
            None => true,
        }
    }

    /// Returns whether the fact can't remain when the effect fires. True if the fact is on the variable of the effect.
    #[inline(always)]
    pub fn is_gone(&self, kept: &[bool], fact: Fact, recorded: &Recorded) -> bool
        requires notes { IsNotedAt self.now kept.now recorded.now }
        requires fact { FactExists self.now.task.variables fact }
        ensures { IsTrue result ↔ IsGoneAt self.now kept.now fact }
    {
        if self.change.var == fact.var {
            return true;
        }
        self.clashes(kept, fact, recorded) || self.is_removed(fact, &recorded.known)
    }

    /// Returns whether some effect of the operator removes the fact: it sets the variable of the fact to another value, and each of its
    /// conditions is this fact or is recorded. For a large operator, only effects on that variable are looked at.
    #[inline(always)]
    fn is_removed(&self, fact: Fact, notes: &Notes) -> bool
        requires wide { IsWide self.now.task notes.now }
        ensures { IsTrue result ↔ SomeRemoves (operator_of self.now) notes.now fact }
    {
        let effects = self.task.effects(self.operator);
        if let Some(on) = self.effects_on(fact.var) {
            return on.iter().any(|effect| *effect < effects && self.removes(*effect, fact, notes));
        }
        match self.task.plain_changes(self.operator) {
            Some(changes) => one_changes(changes, fact),
            None => self.some_removes(fact, notes),
        }
    }

    /// `is_removed` by looking at all effects of the operator.
    #[inline(always)]
    fn some_removes(&self, fact: Fact, notes: &Notes) -> bool
        requires wide { IsWide self.now.task notes.now }
        ensures { IsTrue result ↔ SomeRemoves (operator_of self.now) notes.now fact }
    {
        for effect in 0..self.task.effects(self.operator) {
            if self.removes(effect, fact, notes) {
                return true;
            }
        }
        false
    }

    /// Returns whether this effect of the operator removes the fact: it sets the variable of the fact to another value, and each of its
    /// conditions is this fact or is recorded.
    #[inline(always)]
    fn removes(&self, effect: u32, fact: Fact, notes: &Notes) -> bool
        requires wide { IsWide self.now.task notes.now }
        requires effect { effect < length (operator_of self.now).effects }
        ensures { IsTrue result
            ↔ Removes (IsMet notes.now fact) (effect_at (operator_of self.now) effect) fact }
    {
        let change = self.task.effect_change(self.operator, effect);
        if change.var != fact.var || change.new == fact.value {
            return false;
        }
        let conditions = self.task.effect_conditions(self.operator, effect);
        all_met(conditions, fact, notes)
    }
}

/// Returns whether the fact at this index is the first of a run of facts on one variable.
pub fn begins_run(facts: &[Fact], place: usize) -> bool
    requires { place < length facts.now }
    ensures begins { IsTrue result → BeginsRun facts.now place }
    ensures follows { IsFalse result → IsOnVariableBefore facts.now place }
{
    place == 0 || facts[place - 1].var != facts[place].var
}

/// Returns whether one of the changes sets the variable of the fact to another value.
#[inline(always)]
fn one_changes(changes: &[Change], fact: Fact) -> bool
    ensures { IsTrue result ↔ Any (SetsOtherValue fact) changes.now }
{
    changes.iter().any(|change| change.var == fact.var && change.new != fact.value)
}

/// Returns whether each condition is this fact or is recorded.
#[inline(always)]
fn all_met(conditions: &[Fact], fact: Fact, notes: &Notes) -> bool
    requires { All (λ (c : Fact). c.var < length notes.now.values) conditions.now }
    ensures { IsTrue result ↔ All (IsMet notes.now fact) conditions.now }
{
    conditions.iter().all(|condition| *condition == fact
        || notes.values.as_slice()[condition.var as usize] == Some(condition.value))
}
