//! A table from names to values.
ghost use Rattle.std.specs.Prelude.{◌≡◌, IfOk, OnOk};
ghost use Rattle.sas_names.specs.NameTable.{IsEmptyTable, Exist, PutsName, PutsDigest, PutsEither, PutsOther, value_of, likely_of, other_of};

use crate::digest::digest;
use crate::named::NameId;
use indexmap::IndexMap;
use std::alloc::{AllocError, Global};
use std::collections::BTreeMap;
use std::hash::BuildHasher;

/// How many names each group of the map has on average, at most.
const NAMES_A_GROUP: usize = 6;

/// How many digests per group the map contains before it grows.
const LOAD: usize = 9;

/// How many digests fit into a group of the map.
const ROOM: u8 = 12;

/// A table from names to values. A value identifies its name, which is stored elsewhere, so a hash map can find the name by its digest
/// without storing it. An ordered map, which stores names, contains every other name of the same digest, and every name for which the hash
/// map would have to search more than one group. So a look-up takes at most logarithmic time, whatever the names are. In ordinary tasks few
/// names are in the ordered map.
pub struct NameTable<V: Copy> {
    /// For each digest the value of one name with this digest.
    first: IndexMap<u64, V>,
    /// The values of all other names.
    others: BTreeMap<Vec<u8>, V>,
    /// For each group of the map, how many digests have it as their first group.
    loads: Vec<u8>,
}

impl<V: Copy> Drop for NameTable<V> {
    fn drop(self) {
        let NameTable {
            first,
            others,
            loads,
        } = self;
        drop(first);
        drop(others);
        drop(loads);
    }
}

impl<V: Copy> NameTable<V> {
    /// Returns an empty table with room for this many names.
    pub fn new(alloc: Global, count: usize) -> Result<NameTable<V>, AllocError>
        ensures { IfOk result IsEmptyTable }
    {
        let groups = groups_for(count);
        let loads = vec![in alloc; 0u8; groups]?;
        let first = IndexMap::with_capacity(alloc, groups.saturating_mul(LOAD))?;
        Ok(NameTable {
            first,
            others: BTreeMap::new(alloc),
            loads,
        })
    }

    /// Returns the value of this name, or `None` if it has none.
    pub fn get<L>(&self, place: &L, name: &[u8]) -> Option<V>
    where
        V: NameId<L>,
        requires { Exist (V.exists place.now) self.now }
        ensures { result ≡ value_of (V.names place.now) self.now name.now }
    {
        match self.first.get(&digest(name)).copied() {
            Some(value) if value.name(place) == name => Some(value),
            _ => self.others.get(name).copied(),
        }
    }

    /// Returns a value that is that of this name if it identifies the name, or `None` if the name has no value. Reads no name unless no name
    /// in the map has its digest.
    #[inline(always)]
    pub fn likely(&self, name: &[u8]) -> Option<V>
        ensures { result ≡ likely_of self.now name.now }
    {
        match self.first.get(&digest(name)).copied() {
            Some(value) => Some(value),
            None => self.others.get(name).copied(),
        }
    }

    /// Maps the name of the value to the value. Returns the value that the name had before, if any.
    pub fn put<L>(&mut self, alloc: Global, place: &L, value: V) -> Result<Option<V>, AllocError>
    where
        V: NameId<L>,
        requires exists { V.exists place.now value }
        requires exist { Exist (V.exists place.now) self.old }
        ensures had { IfOk result (λ had. had
            ≡ value_of (V.names place.now) self.old (V.names place.now value)) }
        ensures puts { OnOk result (PutsName (V.names place.now) value self.old self.new) }
        ensures exist { OnOk result (Exist (V.exists place.now) self.new) }
    {
        let name = value.name(place);
        let digest = digest(name);
        match self.first.get(&digest).copied() {
            None => self.put_new(alloc, name, digest, value),
            Some(own) if own.name(place) == name => {
                put_digest(&mut self.first, digest, value)?;
                Ok(Some(own))
            }
            Some(_) => put_other(alloc, &mut self.others, name, value),
        }
    }

    /// Maps a name whose digest isn't in the map to this value. Returns the value that the name had before, if any.
    fn put_new(
        &mut self,
        alloc: Global,
        name: &[u8],
        digest: u64,
        value: V,
    ) -> Result<Option<V>, AllocError>
        ensures had { IfOk result (λ had. had ≡ other_of self.old.others name.now) }
        ensures puts { OnOk result (PutsEither name.now digest value self.old self.new) }
    {
        match self.others.get(name).copied() {
            None if self.takes(digest) => {
                put_digest(&mut self.first, digest, value)?;
                Ok(None)
            }
            _ => put_other(alloc, &mut self.others, name, value),
        }
    }

    /// Returns whether the first group of this digest has room for it. If so, counts the digest there.
    fn takes(&mut self, digest: u64) -> bool
        ensures first { self.new.first ≡ self.old.first }
        ensures others { self.new.others ≡ self.old.others }
    {
        let group = self.group_of(digest);
        match self.loads.get_mut(group) {
            Some(load) if *load < ROOM => {
                *load += 1;
                true
            }
            _ => false,
        }
    }

    /// Returns the group in which the map starts its search for this digest.
    fn group_of(&self, digest: u64) -> usize {
        let hash = self.first.hasher().hash_one(digest);
        let mask = self.loads.len().wrapping_sub(1);
        ((hash ^ (hash >> 32)) & 0xFFFF_FFFF) as usize & mask
    }
}

/// Returns the number of groups for this many names, a power of two.
fn groups_for(count: usize) -> usize {
    match (count / NAMES_A_GROUP + 1).checked_next_power_of_two() {
        Some(groups) => groups,
        None => 1,
    }
}

/// Maps the digest to this value.
fn put_digest<V: Copy>(
    first: &mut IndexMap<u64, V>,
    digest: u64,
    value: V,
) -> Result<(), AllocError>
    ensures { OnOk result (PutsDigest digest value first.old first.new) }
{
    first.insert(digest, value)?;
    Ok(())
}

/// Maps the name to this value. Returns the value that the name had before, if any.
fn put_other<V: Copy>(
    alloc: Global,
    others: &mut BTreeMap<Vec<u8>, V>,
    name: &[u8],
    value: V,
) -> Result<Option<V>, AllocError>
    ensures had { IfOk result (λ had. had ≡ other_of others.old name.now) }
    ensures puts { OnOk result (PutsOther name.now value others.old others.new) }
{
    let mut key = Vec::new(alloc);
    key.extend_from_slice(name)?;
    Ok(others.insert(key, value)?)
}
