//! Digests of names.
ghost use Rattle.std.specs.Prelude.{◌≡◌};
ghost use Rattle.sas_names.specs.NameTable.{digest_of};

use std::hash::{FoldHasher, Hasher};

/// Returns the digest of a name, a hash by which a map finds the name. Anyone can write names with the same digest. So no answer depends on
/// digests being unique, and equal digests don't make a look-up slow (see `NameTable`).
pub fn digest(name: &[u8]) -> u64
    ensures { result ≡ digest_of name.now }
{
    let mut hasher = FoldHasher::default();
    hasher.write(name);
    hasher.finish()
}
