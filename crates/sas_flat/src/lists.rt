// Lists that are stored one after another in one block of memory.
ghost use Rattle.std.specs.Prelude.{◌≡◌, ◌<◌, ◌≤◌, ◌-◌, [], ◌∷◌, ◌++◌, length, take, replicate, OnOk, OnErr, slice_range};
ghost use Rattle.std.specs.List.{slice_index_or, sum_by};
ghost use Rattle.sas_flat.specs.Growing.{Hold};
ghost use Rattle.sas_flat.specs.Lists.{items_after, lists_in, AreEnds, AreOpen, ListColumnsAlign};

use crate::ends::Ends;
use std::alloc::{AllocError, Global};
use std::marker::Model;

/// The columns of lists: the items of all lists, one after another, and the end of each list. The items of the next list are appended as
/// they are read; then `close` completes it, or `cut` removes them.
pub struct ListColumns<T> {
    pub items: Vec<T>,
    pub(crate) ends: Ends,
}

impl<T: Drop> Drop for ListColumns<T> {
    fn drop(self) {
        let ListColumns { items, ends } = self;
        drop(items);
        drop(ends);
    }
}

/// Lists in one block of memory, with the end of each. In a contract the value is the list of these lists.
#[derive(Drop)]
pub struct Lists<T> {
    columns: ListColumns<T>,
}

impl<T> Model for Lists<T> {
    ghost use Rattle.std.specs.Prelude.{List};
    ghost use Rattle.sas_flat.specs.Lists.{lists_in, AreEnds, ListColumnsAlign};

    ghost Value = { List (List T) };

    ghost view = { λ l. lists_in l.columns };

    ghost invariant = { λ l. ListColumnsAlign AreEnds l.columns };
}

/// Returns the items from `start` up to but not including `end`.
fn part<T>(items: &[T], start: usize, end: usize) -> &[T]
    requires ordered { start ≤ end }
    requires within { end ≤ length items.now }
    ensures { result.now ≡ slice_range items.now start end }
{
    &items[start..end]
}

impl<T> ListColumns<T> {
    /// Returns the columns of no lists.
    pub fn new(alloc: Global) -> Self
        ensures { Hold (ListColumnsAlign AreEnds) lists_in result [] }
    {
        ListColumns {
            items: Vec::new(alloc),
            ends: Ends::new(alloc),
        }
    }
}

impl<T: Copy> ListColumns<T> {
    /// Completes a list whose items are appended. On `Err` (out of memory) its items are removed.
    #[inline(always)]
    pub fn close(&mut self) -> Result<(), AllocError>
        requires { ListColumnsAlign AreOpen self.old }
        ensures align { ListColumnsAlign AreEnds self.new }
        ensures ok { OnOk result (lists_in self.new
            ≡ lists_in self.old ++ items_after self.old.items.items self.old.ends ∷ []) }
        ensures err { OnErr result (lists_in self.new ≡ lists_in self.old) }
    {
        match self.ends.push(self.items.len()) {
            Ok(()) => Ok(()),
            Err(error) => {
                self.cut();
                Err(error)
            }
        }
    }

    /// Appends a list. On `Err` (out of memory) the lists are unchanged.
    #[inline(always)]
    pub fn append(&mut self, list: &[T]) -> Result<(), AllocError>
        requires { ListColumnsAlign AreEnds self.old }
        ensures align { ListColumnsAlign AreEnds self.new }
        ensures ok { OnOk result (lists_in self.new ≡ lists_in self.old ++ list.now ∷ []) }
        ensures err { OnErr result (lists_in self.new ≡ lists_in self.old) }
    {
        self.items.extend_from_slice(list)?;
        self.close()
    }

    /// Removes the items after those of the last list.
    #[cold]
    #[inline(never)]
    pub fn cut(&mut self)
        requires { ListColumnsAlign AreOpen self.old }
        ensures { Hold (ListColumnsAlign AreEnds) lists_in self.new (lists_in self.old) }
    {
        self.items.truncate(self.ends.start(self.ends.len()));
    }
}

impl<T> Lists<T> {
    /// Returns an empty list of lists.
    pub fn new(alloc: Global) -> Self
        ensures { result ≡ [] }
    {
        Lists {
            columns: ListColumns::new(alloc),
        }
    }

    /// Returns the lists in these columns.
    pub fn of_columns(columns: ListColumns<T>) -> Self
        requires { ListColumnsAlign AreEnds columns }
        ensures { result ≡ lists_in columns }
    {
        Lists { columns }
    }

    /// Returns the number of lists.
    pub fn len(&self) -> usize
        ensures { result ≡ length self.now }
    {
        self.columns.ends.len()
    }

    /// Returns the list at this index, counted from 0.
    pub fn get(&self, index: usize) -> &[T]
        requires { index < length self.now }
        ensures { result.now ≡ slice_index_or self.now index [] }
    {
        let start = self.columns.ends.start(index);
        part(
            self.columns.items.as_slice(),
            start,
            self.columns.ends.end(index),
        )
    }

    /// Returns the number of items in the first `count` lists.
    pub(crate) fn items_before(&self, count: usize) -> usize
        requires { count ≤ length self.now }
        ensures { result ≡ sum_by (λ list. length list) (take count self.now) }
    {
        self.columns.ends.start(count)
    }
}

impl<T: Copy> Lists<T> {
    /// Appends a list. On `Err` (out of memory) the lists are unchanged.
    #[inline(always)]
    pub fn push(&mut self, list: &[T]) -> Result<(), AllocError>
        ensures ok { OnOk result (self.new ≡ self.old ++ list.now ∷ []) }
        ensures err { OnErr result (self.new ≡ self.old) }
    {
        self.columns.append(list)
    }

    /// Appends empty lists until there are at least `count` lists. On `Err` (out of memory) the lists are unchanged.
    pub fn fill(&mut self, count: usize) -> Result<(), AllocError>
        ensures ok { OnOk result (self.new ≡ self.old ++ replicate (count - length self.old) []) }
        ensures err { OnErr result (self.new ≡ self.old) }
    {
        let lists = self.len();
        if lists < count {
            self.columns
                .ends
                .push_same(self.columns.items.len(), count - lists)?;
        }
        Ok(())
    }

    /// Appends all lists of `more`. On `Err` (out of memory) the lists are unchanged.
    #[inline(always)]
    pub fn append(&mut self, more: &Lists<T>) -> Result<(), AllocError>
        ensures ok { OnOk result (self.new ≡ self.old ++ more.now) }
        ensures err { OnErr result (self.new ≡ self.old) }
    {
        let start = self.columns.items.len();
        self.columns
            .items
            .extend_from_slice(more.columns.items.as_slice())?;
        match self.columns.ends.push_shifted(&more.columns.ends, start) {
            Ok(()) => Ok(()),
            Err(error) => {
                self.columns.cut();
                Err(error)
            }
        }
    }

    /// Keeps the first `count` lists.
    pub fn truncate(&mut self, count: usize)
        requires { count ≤ length self.old }
        ensures { self.new ≡ take count self.old }
    {
        self.columns.items.truncate(self.columns.ends.start(count));
        self.columns.ends.truncate(count);
    }

    /// Removes all lists but keeps the memory.
    pub fn clear(&mut self)
        ensures { self.new ≡ [] }
    {
        self.columns.items.clear();
        self.columns.ends.clear();
    }
}
