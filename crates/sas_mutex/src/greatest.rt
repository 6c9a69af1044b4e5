// Finds the greatest family of groups that is kept jointly.
ghost use Rattle.std.specs.Prelude.{◌≡◌, ◌<◌, ◌≤◌, [], length, IsTrue, IfOk};
ghost use Rattle.sas_groups.specs.Families.{IsGreatest};
ghost use Rattle.sas_mutex.specs.Kept.{family_of};
ghost use Rattle.sas_mutex.specs.Falling.{AreCandidates, newly, Falls, IsAtRest, RestsOn};
ghost use Rattle.sas_mutex.specs.Looking.{IsIdle};
ghost use Rattle.sas_mutex.specs.VerdictsSoFar.{AreFirstVerdicts};
ghost use Rattle.sas_mutex.specs.Watching.{AreUnwatched, FallenAreUnwatched, IsReady, IsUnwatched, StayUnwatched, IsWatchedAnew, AreLooseAtRest};

use crate::indexed::IndexedTask;
use crate::looking::Keeping;
use crate::watches::Watches;
use sas_core::Grounded;
use sas_groups::Verdict;
use std::alloc::{AllocError, Global};

/// The search for the greatest family.
#[derive(Drop)]
pub struct Search {
    pub keeping: Keeping,
    pub watches: Watches,
}

impl Search {
    /// Returns a search that begins with all groups that may be exclusive, by the verdicts before operators are looked at. Allocates all
    /// memory that it needs.
    pub fn new<T: Grounded>(
        alloc: Global,
        indexed: &IndexedTask<'_, '_, T>,
        verdicts: &[Verdict],
    ) -> Result<Search, AllocError>
        requires { AreFirstVerdicts indexed.now verdicts.now }
        ensures unwatched { let p = indexed.now in IfOk result
            (λ search. AreUnwatched (length p.groups) (length p.operators) search.watches) }
        ensures candidates { IfOk result
            (λ search. AreCandidates indexed.now search.keeping.family.kept) }
        ensures none { IfOk result (λ search. search.keeping.family.fallen.items ≡ []) }
        ensures idle { IfOk result (λ search. IsIdle indexed.now search.keeping) }
    {
        let watches = Watches::new(alloc, indexed.task.groups(), indexed.task.operators())?;
        let keeping = Keeping::new(alloc, indexed, verdicts)?;
        Ok(Search { keeping, watches })
    }

    /// Removes groups from the family until every operator keeps each remaining group. At first the family must contain exactly the groups
    /// that may be exclusive. After a group is removed, only operators that watch it are looked at again, and then those that are loose.
    pub fn find_greatest<T: Grounded>(&mut self, indexed: &IndexedTask<'_, '_, T>)
        requires unwatched { let p = indexed.now in
            AreUnwatched (length p.groups) (length p.operators) self.old.watches }
        requires candidates { AreCandidates indexed.now self.old.keeping.family.kept }
        requires none { self.old.keeping.family.fallen.items ≡ [] }
        requires idle { IsIdle indexed.now self.old.keeping }
        ensures greatest { IsGreatest indexed.now (family_of self.new.keeping.family.kept) }
        ensures idle { IsIdle indexed.now self.new.keeping }
    {
        loop {
            let before = self.keeping.family.fallen.len();
            self.look_at_loose(indexed);
            if self.keeping.family.fallen.len() == before {
                return;
            }
            self.look_at_watching(indexed, before);
        }
    }

    /// Looks at each loose operator.
    fn look_at_loose<T: Grounded>(&mut self, indexed: &IndexedTask<'_, '_, T>)
        requires unwatched { let fallen = self.old.keeping.family.fallen.items in
            FallenAreUnwatched fallen (length fallen) self.old.watches }
        requires ready { IsReady indexed.now self.old }
        ensures falls { Falls indexed.now self.old.keeping.family self.new.keeping.family }
        ensures rest { AreLooseAtRest indexed.now self.new.keeping.family.kept
            (newly self.old.keeping.family self.new.keeping.family) self.new.watches
            (length indexed.now.operators) }
        ensures ready { IsReady indexed.now self.new }
        ensures unwatched { let fallen = self.old.keeping.family.fallen.items in
            FallenAreUnwatched fallen (length fallen) self.new.watches }
    {
        for operator in 0..indexed.task.operators() {
            if self.watches.is_loose(operator) {
                self.look_once(indexed, operator);
            }
        }
    }

    /// For each removed group, starting with index `from`, looks again at each operator that watches it, until no more groups are removed.
    fn look_at_watching<T: Grounded>(&mut self, indexed: &IndexedTask<'_, '_, T>, from: usize)
        requires from { from ≤ length self.old.keeping.family.fallen.items }
        requires unwatched { FallenAreUnwatched self.old.keeping.family.fallen.items from
            self.old.watches }
        requires ready { IsReady indexed.now self.old }
        ensures falls { Falls indexed.now self.old.keeping.family self.new.keeping.family }
        ensures ready { IsReady indexed.now self.new }
        ensures unwatched { let fallen = self.new.keeping.family.fallen.items in
            FallenAreUnwatched fallen (length fallen) self.new.watches }
    {
        let mut next = from;
        while next < self.keeping.family.fallen.len() {
            let group = self.keeping.family.fallen[next];
            self.look_at_watchers(indexed, group);
            next += 1;
        }
    }

    /// Looks again at each operator that watches this group, which was removed.
    fn look_at_watchers<T: Grounded>(&mut self, indexed: &IndexedTask<'_, '_, T>, group: u32)
        requires group { group < length indexed.now.groups }
        requires fell { IsTrue (family_of self.old.keeping.family.kept group) → ⊥ }
        requires ready { IsReady indexed.now self.old }
        ensures falls { Falls indexed.now self.old.keeping.family self.new.keeping.family }
        ensures ready { IsReady indexed.now self.new }
        ensures unwatched { IsUnwatched self.new.watches group }
        ensures still { StayUnwatched self.old.keeping.family.kept self.old.watches
            self.new.watches }
    {
        let mut next = self.watches.last.as_slice()[group as usize];
        while let Some(place) = next {
            let watch = self.watches.made.as_slice()[place as usize];
            if self.watches.counts(place, watch.operator) {
                self.look_once(indexed, watch.operator);
            }
            next = watch.before;
        }
    }

    /// Looks at the operator. Afterwards it watches the groups on which it depends, or it is loose.
    fn look_once<T: Grounded>(&mut self, indexed: &IndexedTask<'_, '_, T>, operator: u32)
        requires operator { operator < length indexed.now.operators }
        requires ready { IsReady indexed.now self.old }
        ensures falls { Falls indexed.now self.old.keeping.family self.new.keeping.family }
        ensures rest { IsAtRest indexed.now self.new.keeping.family.kept operator }
        ensures ready { IsReady indexed.now self.new }
        ensures anew { IsWatchedAnew operator self.new.keeping.family.kept self.old.watches
            self.new.watches }
    {
        let start = self.watches.made.len() as u32;
        let alone = look_until_quiet(indexed, operator, &mut self.keeping);
        let family = &self.keeping.family;
        if alone
            && self
                .watches
                .watch_all(operator, family.supports.as_slice(), family)
        {
            self.watches.since.set(operator as usize, Some(start));
            return;
        }
        self.watches.since.set(operator as usize, None);
    }
}

/// Removes every group that the operator may break, until none is left. Returns true only if it keeps each remaining group as long as
/// all groups of the basis are in the family.
fn look_until_quiet<T: Grounded>(
    indexed: &IndexedTask<'_, '_, T>,
    operator: u32,
    keeping: &mut Keeping,
) -> bool
    requires operator { operator < length indexed.now.operators }
    requires idle { IsIdle indexed.now keeping.old }
    ensures falls { Falls indexed.now keeping.old.family keeping.new.family }
    ensures rest { IsAtRest indexed.now keeping.new.family.kept operator }
    ensures alone { IsTrue result
        → RestsOn indexed.now keeping.new.family.kept keeping.new.family.supports operator }
    ensures idle { IsIdle indexed.now keeping.new }
{
    loop {
        let before = keeping.family.fallen.len();
        keeping.family.clear_basis();
        let alone = keeping.look_at(indexed, operator);
        if keeping.family.fallen.len() == before {
            return alone;
        }
    }
}
