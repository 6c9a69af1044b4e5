// Facts recorded by variable and by group, so that another fact can be compared with all of them at once.
ghost use Rattle.std.specs.Prelude.{◌≡◌, ◌≢◌, ◌<◌, ◌⊎◌, ◌↔◌, length, Some, None, IsTrue, IsFalse, IfOk, IfSome, All, Contains};
ghost use Rattle.sas_core.specs.Variables.{FactExists};
ghost use Rattle.sas_mutex.specs.Kept.{family_of};
ghost use Rattle.sas_mutex.specs.declared.notes.GroupNote.TheVariants.{Nothing, One, Several};
ghost use Rattle.sas_mutex.specs.Index.{groups_of};
ghost use Rattle.sas_mutex.specs.Notes.{AreBlank, AreFrom};
ghost use Rattle.sas_mutex.specs.Noting.{AreBelow, ShareKept, SharesApart, IsContradicted};
ghost use Rattle.sas_mutex.specs.Noting.{IsNotedToo, IsExcluded, TakenBySome, TakenByAll};
ghost use Rattle.sas_mutex.specs.Noting.{ChangesAt, IsThere, NotesFirstFact, ForgetsGroups, Forgets, IsSetApart, IsCompleted};
ghost use Rattle.sas_mutex.specs.Noting.{HasNotedGroup};

use crate::deciding::DecidingGroups;
use crate::index::Index;
use crate::indexed::IndexedTask;
use sas_core::{Fact, Grounded, Items};
use sas_meaning::Layered;
use std::alloc::{AllocError, Global};

/// Only a fact of more groups than this may be set apart. Then it isn't recorded for its groups.
const APART_LIMIT: usize = 8;

/// Which facts of a group are recorded.
#[derive(Clone, Copy)]
pub enum GroupNote {
    /// No fact.
    Nothing,
    /// Only this fact.
    One(Fact),
    /// At least two different facts. They contradict each other if the group is assumed to be exclusive.
    Several,
}

impl GroupNote {
    /// Returns the record after this fact of the group is recorded, too.
    #[inline(always)]
    fn with(self, fact: Fact) -> GroupNote
        ensures { IsNotedToo self fact result }
    {
        match self {
            GroupNote::Nothing => GroupNote::One(fact),
            GroupNote::One(other) if other == fact => self,
            _ => GroupNote::Several,
        }
    }

    /// Returns the recorded fact if it is the only one.
    #[inline(always)]
    pub fn only(self) -> Option<Fact>
        ensures some { (fact : Fact) → result ≡ Some fact → self ≡ One fact }
        ensures none { result ≡ None → (fact : Fact) → self ≢ One fact }
    {
        match self {
            GroupNote::One(fact) => Some(fact),
            _ => None,
        }
    }

    /// Returns whether no fact is recorded.
    #[inline(always)]
    pub fn is_nothing(self) -> bool
        ensures { IsTrue result ↔ (self ≡ Nothing) }
    {
        matches!(self, GroupNote::Nothing)
    }

    /// Returns whether at least two different facts are recorded.
    #[inline(always)]
    pub fn is_several(self) -> bool
        ensures { IsTrue result ↔ (self ≡ Several) }
    {
        matches!(self, GroupNote::Several)
    }
}

/// Facts recorded by variable and by group. What is recorded for a group doesn't depend on whether the group is in the family.
#[derive(Drop)]
pub struct Notes {
    /// For each variable, the value of a recorded fact on it.
    pub values: Items<Option<u32>>,
    /// For each group, which of its facts are recorded, except the one set apart.
    pub groups: Items<GroupNote>,
    /// A fact that is only recorded for its variable, since many groups contain it. Whether a group contains it is looked up in the index.
    pub apart: Option<Fact>,
    /// The cost of processing all recorded facts and their groups (except those of the fact set apart). It is a hint that no contract
    /// mentions.
    pub spread: usize,
    /// Whether some fact of the task may be set apart. In most tasks no fact has so many groups. It is a hint, too.
    pub some_wide: bool,
}

impl Notes {
    /// Returns notes without facts.
    pub fn new<T: Grounded>(
        alloc: Global,
        task: &Layered<T>,
        some_wide: bool,
    ) -> Result<Notes, AllocError>
        ensures { IfOk result (λ notes. AreBlank task.now notes) }
    {
        Ok(Notes {
            values: Items::from_vec(vec![in alloc; None; task.variables() as usize]?),
            groups: Items::from_vec(vec![in alloc; GroupNote::Nothing; task.groups() as usize]?),
            apart: None,
            spread: 0,
            some_wide,
        })
    }

    /// Returns which facts of the group are recorded, including the fact set apart.
    #[inline(always)]
    pub fn noted(&self, index: &Index, group: u32) -> GroupNote
        requires group { group < length self.now.groups }
        ensures { IsCompleted index.now self.now group result }
    {
        let noted = self.groups.as_slice()[group as usize];
        match self.apart {
            Some(fact) if index.has(group, fact) => noted.with(fact),
            _ => noted,
        }
    }

    /// Returns whether this is the fact set apart.
    #[inline(always)]
    pub fn is_apart(&self, fact: Fact) -> bool
        ensures { IsTrue result ↔ (self.now.apart ≡ Some fact) }
    {
        self.apart == Some(fact)
    }
}

/// Returns whether some fact has many groups.
pub fn has_wide(index: &Index) -> bool {
    (0..index.groups.len()).any(|key| index.groups.get(key).len() > APART_LIMIT)
}

/// Returns `fact` if it has many groups, and more than `other`. Otherwise returns `other`.
pub fn wider(index: &Index, fact: Fact, other: Option<Fact>) -> Option<Fact>
    ensures { (result ≡ Some fact) ⊎ (result ≡ other) }
{
    let most = match other {
        Some(other) => index.groups_of(other).len(),
        None => APART_LIMIT,
    };
    if index.groups_of(fact).len() > most {
        Some(fact)
    } else {
        other
    }
}

/// Sets the fact apart, if given, and records it for its variable.
#[inline(always)]
pub fn set_apart(apart: Option<Fact>, notes: &mut Notes)
    requires { IfSome apart (λ fact. fact.var < length notes.old.values) }
    ensures { IsSetApart apart notes.old notes.new }
{
    if let Some(fact) = apart {
        notes.values.set(fact.var as usize, Some(fact.value));
    }
    notes.apart = apart;
}

/// Records the fact and returns whether it contradicts no recorded fact. If it contradicts one, it may be partly recorded.
#[inline(always)]
pub fn note(
    index: &Index,
    kept: &[bool],
    fact: Fact,
    notes: &mut Notes,
    deciding: &DecidingGroups,
) -> bool
    requires value { fact.var < length notes.old.values }
    requires groups { AreBelow (length notes.old.groups) (groups_of index.now fact) }
    ensures yes { IsTrue result → IsThere fact notes.old notes.new
        ⊎ NotesFirstFact index.now kept.now fact notes.old notes.new }
    ensures no { IsFalse result → IsContradicted index.now kept.now fact notes.old }
    ensures changes { ChangesAt (groups_of index.now fact) fact notes.old notes.new }
{
    match notes.values.as_slice()[fact.var as usize] {
        Some(value) => {
            notes.spread = notes.spread.saturating_add(1);
            value == fact.value
        }
        None => {
            if shares_apart(index, kept, fact, notes.apart, deciding) {
                return false;
            }
            notes.values.set(fact.var as usize, Some(fact.value));
            let groups = index.groups_of(fact);
            notes.spread = notes.spread.saturating_add(groups.len()).saturating_add(1);
            note_in_groups(groups, kept, fact, &mut notes.groups, deciding)
        }
    }
}

/// Returns whether a group of the family contains both this fact and the one set apart.
#[inline(always)]
pub fn shares_apart(
    index: &Index,
    kept: &[bool],
    fact: Fact,
    apart: Option<Fact>,
    deciding: &DecidingGroups,
) -> bool
    ensures { IsTrue result ↔ SharesApart index.now kept.now fact apart }
{
    match apart {
        Some(other) => share_kept(index, kept, fact, other, deciding),
        None => false,
    }
}

/// Returns whether a group of the family contains both facts. Searches the groups of the fact that has fewer.
fn share_kept(
    index: &Index,
    kept: &[bool],
    fact: Fact,
    other: Fact,
    deciding: &DecidingGroups,
) -> bool
    ensures { IsTrue result ↔ ShareKept index.now kept.now fact other }
{
    if index.groups_of(fact).len() <= index.groups_of(other).len() {
        some_has(index, kept, fact, other, deciding)
    } else {
        some_has(index, kept, other, fact, deciding)
    }
}

/// Returns whether a group of the family contains both facts. Searches the groups of `fact`.
pub fn some_has(
    index: &Index,
    kept: &[bool],
    fact: Fact,
    other: Fact,
    deciding: &DecidingGroups,
) -> bool
    ensures { IsTrue result ↔ ShareKept index.now kept.now fact other }
{
    for group in index.groups_of(fact) {
        if is_kept(kept, *group) && index.has(*group, other) {
            deciding.decided_by(*group);
            return true;
        }
    }
    false
}

/// Returns whether the group is in the family.
#[inline(always)]
fn is_kept(kept: &[bool], group: u32) -> bool
    ensures { result ≡ family_of kept.now group }
{
    match kept.get(group as usize) {
        Some(kept) => *kept,
        None => false,
    }
}

/// Records the fact for these groups, which contain it. Returns false if another fact is recorded for one of them that is in the family.
#[inline(always)]
fn note_in_groups(
    groups: &[u32],
    kept: &[bool],
    fact: Fact,
    noted: &mut Items<GroupNote>,
    deciding: &DecidingGroups,
) -> bool
    requires { AreBelow (length noted.old) groups.now }
    ensures yes { IsTrue result → TakenByAll groups.now kept.now fact noted.old noted.new }
    ensures no { IsFalse result → IsExcluded groups.now kept.now fact noted.old }
    ensures some { TakenBySome groups.now kept.now fact noted.old noted.new }
{
    for group in groups {
        let now = noted.as_slice()[*group as usize].with(fact);
        if now.is_several() && is_kept(kept, *group) {
            deciding.decided_by(*group);
            return false;
        }
        noted.set(*group as usize, now);
    }
    true
}

/// Returns whether a fact is recorded for one of these groups that is in the family.
pub fn has_noted(
    groups: &[u32],
    kept: &[bool],
    noted: &[GroupNote],
    deciding: &DecidingGroups,
) -> bool
    requires { AreBelow (length noted.now) groups.now }
    ensures { IsTrue result ↔ HasNotedGroup groups.now kept.now noted.now }
{
    for group in groups {
        if is_kept(kept, *group) && !noted[*group as usize].is_nothing() {
            deciding.decided_by(*group);
            return true;
        }
    }
    false
}

/// Removes what is recorded for the fact: its variable, and its groups unless the fact is set apart.
#[inline(always)]
pub fn forget(index: &Index, fact: Fact, notes: &mut Notes)
    requires value { fact.var < length notes.old.values }
    requires groups { AreBelow (length notes.old.groups) (groups_of index.now fact) }
    ensures { Forgets (groups_of index.now fact) fact notes.old notes.new }
{
    notes.values.set(fact.var as usize, None);
    if !notes.is_apart(fact) {
        forget_groups(index.groups_of(fact), &mut notes.groups);
    }
}

/// Removes what is recorded for these groups.
#[inline(always)]
fn forget_groups(groups: &[u32], noted: &mut Items<GroupNote>)
    requires { AreBelow (length noted.old) groups.now }
    ensures { ForgetsGroups groups.now noted.old noted.new }
{
    for group in groups {
        noted.set(*group as usize, GroupNote::Nothing);
    }
}

/// Returns the fact with the most groups among those with many groups. Returns `None` if there is none, or if `some_wide` is false.
pub fn widest_of(index: &Index, facts: &[Fact], some_wide: bool) -> Option<Fact>
    ensures { IfSome result (Contains facts.now) }
{
    if !some_wide {
        return None;
    }
    let mut widest = None;
    for fact in facts {
        widest = wider(index, *fact, widest);
    }
    widest
}

/// Removes what is recorded for these facts.
pub fn forget_facts<T: Grounded>(
    indexed: &IndexedTask<'_, '_, T>,
    facts: &[Fact],
    notes: &mut Notes,
)
    requires exist { All (FactExists indexed.now.variables) facts.now }
    requires from { AreFrom indexed.now facts.now notes.old }
    ensures { AreBlank indexed.now notes.new }
{
    for fact in facts {
        forget(indexed.index, *fact, notes);
    }
    notes.apart = None;
    notes.spread = 0;
}
