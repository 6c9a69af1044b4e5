// Stores the names of a plan's steps while they are read.
ghost use Rattle.std.specs.Prelude.{◌≡◌, ◌∷◌, ◌++◌, [], OnOk, OnErr};

use sas_core::Items;
use sas_flat::Lists;
use std::alloc::{AllocError, Global};

/// A list of the names of the steps so far.
pub trait NameList: Drop {
    ghost use Rattle.std.specs.Prelude.{List, ℕ};

    /// The names, in order.
    ghost names: { Self → List (List ℕ) };

    /// Appends a name. Returns `Err` and changes nothing if out of memory.
    fn add(&mut self, alloc: Global, name: &[u8]) -> Result<(), AllocError>
        ensures ok { OnOk result (names self.new ≡ names self.old ++ name.now ∷ []) }
        ensures err { OnErr result (names self.new ≡ names self.old) };
}

/// Each name is a list of its own.
impl NameList for Items<Items<u8>> {
    ghost names = { λ names. names };

    fn add(&mut self, alloc: Global, name: &[u8]) -> Result<(), AllocError> {
        let name = Vec::from_slice(alloc, name)?;
        self.push(Items::from_vec(name))
    }
}

/// All names are stored in one block of memory.
impl NameList for Lists<u8> {
    ghost names = { λ names. names };

    #[inline(always)]
    fn add(&mut self, _alloc: Global, name: &[u8]) -> Result<(), AllocError> {
        self.push(name)
    }
}
