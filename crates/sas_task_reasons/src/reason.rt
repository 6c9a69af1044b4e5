// Why a group isn't exclusive.
use sas_core::Fact;
use sas_mutex::Failure;

/// The reason why a group isn't exclusive.
#[derive(Clone, Copy)]
pub enum Reason {
    /// The first fact of the group on a derived variable.
    OnDerived { fact: Fact },
    /// The first fact of the group that holds in the state section, and the first one on another variable.
    HoldsTwo { first: Fact, second: Fact },
    /// The operator doesn't keep the group. This is its first failure.
    Breaks { operator: u32, failure: Failure },
}
