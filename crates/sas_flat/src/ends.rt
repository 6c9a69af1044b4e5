// The ends of lists that are stored one after another.
ghost use Rattle.std.specs.Prelude.{◌≡◌, ◌<◌, ◌≤◌, ◌+◌, ◌^◌, [], ◌∷◌, ◌++◌, length, take, map, replicate, OnOk, OnErr, EachIndex, slice_index};
ghost use Rattle.sas_flat.specs.Lists.{start_of};

use std::alloc::{AllocError, Global};
use std::marker::Model;

/// The end of each list in one block of memory. The ends of the lists in this crate ascend. In a contract the value is the list of the
/// ends.
#[derive(Drop)]
pub struct Ends {
    places: Vec<usize>,
}

impl Model for Ends {
    ghost use Rattle.std.specs.Prelude.{List, ℕ};

    ghost Value = { List ℕ };

    ghost view = { λ e. e.places.items };
}

/// Adds `by` to each of the ends.
fn shift(places: &mut [usize], by: usize)
    requires { EachIndex places.old (λ index. slice_index places.old index + by < 2 ^ 64) }
    ensures { places.new ≡ map (λ place. place + by) places.old }
{
    for place in places.iter_mut() {
        *place += by;
    }
}

impl Ends {
    /// Returns the ends of no lists.
    pub fn new(alloc: Global) -> Self
        ensures { result ≡ [] }
    {
        Ends {
            places: Vec::new(alloc),
        }
    }

    /// Returns these ends.
    pub(crate) fn of_places(places: Vec<usize>) -> Self
        ensures { result ≡ places.items }
    {
        Ends { places }
    }

    /// Returns the number of lists.
    pub fn len(&self) -> usize
        ensures { result ≡ length self.now }
    {
        self.places.len()
    }

    /// Returns the start of the list at `index`, which is the end of the previous list. If `index` is the number of lists, returns where
    /// the next list would start.
    pub fn start(&self, index: usize) -> usize
        requires { index ≤ length self.now }
        ensures { result ≡ start_of self.now index }
    {
        if index == 0 {
            0
        } else {
            self.places.as_slice()[index - 1]
        }
    }

    /// Returns the end of the list at `index`.
    pub fn end(&self, index: usize) -> usize
        requires { index < length self.now }
        ensures { result ≡ slice_index self.now index }
    {
        self.places.as_slice()[index]
    }

    /// Appends a list that ends at `place`. On `Err` (out of memory) the ends are unchanged.
    #[inline(always)]
    pub fn push(&mut self, place: usize) -> Result<(), AllocError>
        requires { start_of self.old (length self.old) ≤ place }
        ensures ok { OnOk result (self.new ≡ self.old ++ place ∷ []) }
        ensures err { OnErr result (self.new ≡ self.old) }
    {
        self.places.push(place)?;
        Ok(())
    }

    /// Appends `count` lists that all end at `place`. On `Err` (out of memory) the ends are unchanged.
    pub fn push_same(&mut self, place: usize, count: usize) -> Result<(), AllocError>
        requires { start_of self.old (length self.old) ≤ place }
        ensures ok { OnOk result (self.new ≡ self.old ++ replicate count place) }
        ensures err { OnErr result (self.new ≡ self.old) }
    {
        self.places.reserve(count)?;
        self.places.resize(self.places.len() + count, place)
    }

    /// Appends the ends in `more`, each increased by `by`. On `Err` (out of memory) the ends are unchanged.
    pub fn push_shifted(&mut self, more: &Ends, by: usize) -> Result<(), AllocError>
        requires { EachIndex more.now (λ index. slice_index more.now index + by < 2 ^ 64) }
        ensures ok { OnOk result (self.new ≡ self.old ++ map (λ place. place + by) more.now) }
        ensures err { OnErr result (self.new ≡ self.old) }
    {
        let count = self.places.len();
        self.places.extend_from_slice(more.places.as_slice())?;
        shift(&mut self.places.as_mut_slice()[count..], by);
        Ok(())
    }

    /// Keeps the first `count` lists, or all if there are fewer.
    pub fn truncate(&mut self, count: usize)
        ensures { self.new ≡ take count self.old }
    {
        self.places.truncate(count);
    }

    /// Removes all ends but keeps the memory.
    pub fn clear(&mut self)
        ensures { self.new ≡ [] }
    {
        self.places.clear();
    }
}
