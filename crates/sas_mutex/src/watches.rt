// Which operators must be looked at again when a group is removed.
ghost use Rattle.std.specs.Prelude.{◌≡◌, ◌<◌, ◌≤◌, ◌++◌, ◌∷◌, ◌^◌, ℕ, [], length, IsTrue, IsFalse, IfOk, All, Some, None, slice_index_or, slice_set, replicate};
ghost use Rattle.sas_mutex.specs.Watching.{AreChained, AreUnwatched, HasWatchFrom, WatchesMore, since_of};

use crate::family::Family;
use sas_core::Items;
use std::alloc::{AllocError, Global};

/// The operator must be looked at again if the group is removed.
#[derive(Clone, Copy)]
pub struct Watch {
    pub group: u32,
    pub operator: u32,
    /// The index of the previous watch of the same group.
    pub before: Option<u32>,
}

/// All watches in the order in which they were added. The watches of each group form a linked list.
#[derive(Drop)]
pub struct Watches {
    pub made: Items<Watch>,
    /// For each group, the index of its last watch.
    pub last: Items<Option<u32>>,
    /// For each operator, the index of its first valid watch. As long as all groups that it watches are in the family, it keeps each group
    /// of the family. An operator without such an index is loose: it depends on more groups than are recorded, or wasn't looked at yet.
    pub since: Items<Option<u32>>,
    /// The maximum number of watches.
    pub room: usize,
}

/// The number of watches reserved per operator. Reserved memory that isn't used isn't taken from the system.
const WATCHES_EACH: usize = 2;

/// The index of a watch must fit into a `u32`.
const MOST_WATCHES: usize = u32::MAX as usize - 1;

/// Returns `None` for each of this many groups or operators.
fn none_each(alloc: Global, count: u32) -> Result<Items<Option<u32>>, AllocError>
    ensures { IfOk result (λ list. list ≡ replicate count None) }
{
    Ok(Items::from_vec(vec![in alloc; None; count as usize]?))
}

impl Watches {
    /// Returns no watches for this many groups and operators. All operators are loose. Allocates all memory that will be needed.
    pub fn new(alloc: Global, groups: u32, operators: u32) -> Result<Watches, AllocError>
        ensures { IfOk result (λ watches. AreUnwatched groups operators watches) }
    {
        let room = (operators as usize).saturating_mul(WATCHES_EACH);
        let last = none_each(alloc, groups)?;
        let since = none_each(alloc, operators)?;
        let made = Items::from_vec(Vec::with_capacity(alloc, room)?);
        Ok(Watches {
            made,
            last,
            since,
            room,
        })
    }

    /// Makes the operator watch the group. Returns false if there is no room.
    fn watch(&mut self, operator: u32, group: u32) -> bool
        requires group { group < length self.old.last }
        ensures no { IsFalse result → self.new.made ≡ self.old.made }
        ensures same { IsFalse result → self.new.last ≡ self.old.last }
        ensures since { self.new.since ≡ self.old.since }
        ensures few { IsTrue result → length self.new.made < 2 ^ 32 }
        ensures made { IsTrue result → self.new.made ≡ self.old.made
            ++ record {
              group = group;
              operator = operator;
              before = slice_index_or self.old.last group None;
            } ∷ [] }
        ensures last { IsTrue result
            → self.new.last ≡ slice_set self.old.last group (Some (length self.old.made)) }
    {
        let place = self.made.len();
        let before = self.last.as_slice()[group as usize];
        let watch = Watch {
            group,
            operator,
            before,
        };
        if place >= self.room.min(MOST_WATCHES) || self.made.push(watch).is_err() {
            return false;
        }
        self.last.set(group as usize, Some(place as u32));
        true
    }

    /// Makes the operator watch these groups. Returns false if one of them isn't in the family or there is no room. Then some watches may
    /// have been added.
    pub fn watch_all(&mut self, operator: u32, groups: &[u32], family: &Family) -> bool
        requires one_each { length self.old.last ≡ length family.now.kept }
        requires chained { AreChained self.old.made self.old.last }
        requires few { length self.old.made < 2 ^ 32 }
        ensures more { WatchesMore operator family.now.kept self.old self.new }
        ensures all { IsTrue result
            → All (HasWatchFrom self.new.made operator (length self.old.made)) groups.now }
    {
        for group in groups {
            if !family.has(*group) || !self.watch(operator, *group) {
                return false;
            }
        }
        true
    }

    /// Returns whether the operator is loose.
    pub fn is_loose(&self, operator: u32) -> bool
        requires { operator < length self.now.since }
        ensures { IsFalse result → since_of self.now.since operator ≡ None → ⊥ }
    {
        self.since.as_slice()[operator as usize].is_none()
    }

    /// Returns whether this watch of the operator is still valid.
    pub fn counts(&self, place: u32, operator: u32) -> bool
        requires { operator < length self.now.since }
        ensures { IsFalse result → (start : ℕ)
            → since_of self.now.since operator ≡ Some start → start ≤ place → ⊥ }
    {
        match self.since.as_slice()[operator as usize] {
            Some(start) => start <= place,
            None => false,
        }
    }
}
