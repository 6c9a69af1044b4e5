// The family: the groups that may still be kept jointly.
ghost use Rattle.std.specs.Prelude.{◌≡◌, Some, ◌≤◌, ◌+◌, ◌++◌, [], ◌∷◌, false, ℕ, ◌<◌, length, IsTrue, IfOk, All, ◌↔◌, slice_set, vec_capacity};
ghost use Rattle.sas_groups.specs.declared.verdict.Verdict.TheVariants.{Exclusive};
ghost use Rattle.sas_groups.specs.Verdicts.{verdict_at};
ghost use Rattle.sas_mutex.specs.Kept.{family_of};
ghost use Rattle.sas_mutex.specs.Falling.{count};
ghost use Rattle.sas_mutex.specs.Basis.{AreNotedWith, IsBasis, IsPartOf, HasGrown, IsOfNone, IsWithout};

use crate::deciding::MOST_GROUPS;
use sas_core::{Fact, Items};
use sas_groups::Verdict;
use std::alloc::{AllocError, Global};

/// A fact that contradicts all facts of a group, assuming a family. If `var` is a variable, it need not contradict those on it.
#[derive(Clone, Copy)]
pub struct Excluding {
    pub fact: Fact,
    pub group: u32,
    pub var: Option<u32>,
}

impl Excluding {
    /// Returns whether the fact contradicts all facts of this group that aren't on this variable.
    #[inline(always)]
    pub fn is_for(&self, group: u32, var: u32) -> bool
        ensures group { IsTrue result → self.now.group ≡ group }
        ensures var { IsTrue result → (v : ℕ) → self.now.var ≡ Some v → v ≡ var }
    {
        let is_left_out = match self.var {
            Some(left_out) => left_out == var,
            None => true,
        };
        self.group == group && is_left_out
    }
}

/// At most so many of them are noted.
const MOST_EXCLUDING: usize = 8;

/// The groups that may still be kept jointly, and those that were removed.
#[derive(Drop)]
pub struct Family {
    /// For each group, whether it is in the family.
    pub kept: Items<bool>,
    /// The removed groups, in the order of their removal.
    pub fallen: Vec<u32>,
    /// The groups that are assumed besides a group itself to find whether an effect keeps the group whichever others are removed.
    /// They are those on which the current operator depends, as far as it was looked at.
    pub basis: Items<bool>,
    /// The groups of the basis as a list. They are few.
    pub supports: Items<u32>,
    /// Whether the operator depends on more groups than the basis may have. Then the basis isn't used any more. It is a hint that no
    /// contract mentions.
    pub is_short: bool,
    /// Facts that exclude others, as found since a group was removed last. What one operator has found, others need not find again.
    pub excluding: Items<Excluding>,
}

/// Returns for each verdict whether it is `Exclusive`.
fn exclusive_of(alloc: Global, verdicts: &[Verdict]) -> Result<Items<bool>, AllocError>
    ensures one_each { IfOk result (λ kept. length kept ≡ length verdicts.now) }
    ensures exclusive { IfOk result (λ kept. (place : ℕ) → place < length verdicts.now
        → IsTrue (family_of kept place) ↔ (verdict_at verdicts.now place ≡ Exclusive)) }
{
    let mut kept = Items::from_vec(Vec::with_capacity(alloc, verdicts.len())?);
    for verdict in verdicts {
        kept.push(*verdict == Verdict::Exclusive)?;
    }
    Ok(kept)
}

/// Removes these groups from a family.
fn take_out(list: &mut Items<bool>, groups: &[u32])
    requires low { All (λ (group : ℕ). group < length list.old) groups.now }
    ensures { IsWithout groups.now list.old list.new }
{
    for group in groups {
        list.set(*group as usize, false);
    }
}

impl Family {
    /// Returns the family of the groups that may be exclusive, by the verdicts before operators are looked at.
    pub fn new(alloc: Global, verdicts: &[Verdict]) -> Result<Family, AllocError>
        ensures one_each { IfOk result (λ family. length family.kept ≡ length verdicts.now) }
        ensures exclusive { IfOk result (λ family. (place : ℕ) → place < length verdicts.now
            → IsTrue (family_of family.kept place)
            ↔ (verdict_at verdicts.now place ≡ Exclusive)) }
        ensures none { IfOk result (λ family. family.fallen.items ≡ []) }
        ensures room { IfOk result
            (λ family. length verdicts.now ≤ vec_capacity family.fallen) }
        ensures of_none { IfOk result (λ family. IsOfNone (length verdicts.now) family.basis) }
        ensures free { IfOk result (λ family. family.supports ≡ []) }
        ensures excluding { IfOk result (λ family. family.excluding ≡ []) }
    {
        Ok(Family {
            kept: exclusive_of(alloc, verdicts)?,
            fallen: Vec::with_capacity(alloc, verdicts.len())?,
            basis: Items::from_vec(vec![in alloc; false; verdicts.len()]?),
            supports: Items::from_vec(Vec::with_capacity(alloc, MOST_GROUPS)?),
            is_short: false,
            excluding: Items::from_vec(Vec::with_capacity(alloc, MOST_EXCLUDING)?),
        })
    }

    /// Returns whether the group is in the family.
    #[inline(always)]
    pub fn has(&self, group: u32) -> bool
        ensures { IsTrue result → IsTrue (family_of self.now.kept group) }
    {
        match self.kept.as_slice().get(group as usize) {
            Some(kept) => *kept,
            None => false,
        }
    }

    /// Returns whether the basis is used and all its groups are in the family.
    #[inline(always)]
    pub fn has_basis(&self) -> bool
        ensures { IsTrue result → (groups : ℕ) → IsBasis groups self.now
            → IsPartOf self.now.basis self.now.kept }
    {
        let supports = self.supports.as_slice();
        !self.is_short && supports.iter().all(|support| self.has(*support))
    }

    /// Adds these groups to the basis. If they are too many, as `None` is, or memory runs out, the basis isn't used any more.
    pub fn grow_basis(&mut self, groups: Option<&[u32]>)
        ensures grown { HasGrown self.old self.new }
        ensures excluding { self.new.excluding ≡ self.old.excluding }
    {
        let Some(groups) = groups else {
            self.is_short = true;
            return;
        };
        for group in groups {
            self.support(*group);
        }
    }

    /// Adds the group to the basis, if it exists.
    fn support(&mut self, group: u32)
        ensures grown { HasGrown self.old self.new }
        ensures excluding { self.new.excluding ≡ self.old.excluding }
    {
        if group as usize >= self.basis.len() || self.basis.as_slice()[group as usize] {
            return;
        }
        if self.supports.len() >= MOST_GROUPS || self.supports.push(group).is_err() {
            self.is_short = true;
            return;
        }
        self.basis.set(group as usize, true);
    }

    /// Notes that a fact excludes others. If too many are noted, these are removed before.
    pub fn note_excluding(&mut self, found: Excluding)
        ensures grown { HasGrown self.old self.new }
        ensures excluding { AreNotedWith found self.old.excluding self.new.excluding }
    {
        let noted = &mut self.excluding;
        if noted.len() >= MOST_EXCLUDING {
            noted.clear();
        }
        let _ = noted.push(found);
    }

    /// Removes all groups from the basis.
    pub fn clear_basis(&mut self)
        requires basis { IsBasis (length self.old.basis) self.old }
        ensures kept { self.new.kept ≡ self.old.kept }
        ensures fallen { self.new.fallen ≡ self.old.fallen }
        ensures basis { IsOfNone (length self.old.basis) self.new.basis }
        ensures none { self.new.supports ≡ [] }
        ensures excluding { self.new.excluding ≡ self.old.excluding }
    {
        take_out(&mut self.basis, self.supports.as_slice());
        self.supports.clear();
        self.is_short = false;
    }

    /// Removes the group from the family and appends it to the removed groups.
    pub fn take_away(&mut self, group: u32)
        requires kept { IsTrue (family_of self.old.kept group) }
        requires room { count self.old.kept + length self.old.fallen.items
            ≤ vec_capacity self.old.fallen }
        ensures kept { self.new.kept ≡ slice_set self.old.kept group false }
        ensures fallen { self.new.fallen.items ≡ self.old.fallen.items ++ group ∷ [] }
        ensures basis { self.new.basis ≡ self.old.basis }
        ensures supports { self.new.supports ≡ self.old.supports }
        ensures excluding { self.new.excluding ≡ [] }
        ensures room { vec_capacity self.old.fallen ≤ vec_capacity self.new.fallen }
    {
        self.kept.set(group as usize, false);
        self.fallen.push(group).unwrap();
        self.excluding.clear();
    }
}
