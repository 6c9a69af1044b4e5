// The verdict on a mutex group.

/// Whether a group is shown to be exclusive, that is, no reachable state contains two different facts of it.
#[derive(Clone, Copy, Debug, PartialEq, Eq)]
pub enum Verdict {
    /// The group is shown to be exclusive.
    Exclusive,
    /// The group has a fact on a derived variable. The criterion only covers groups on basic variables.
    Derived,
    /// The state section contains two different facts of the group.
    Initial,
    /// This operator doesn't keep the group, and all operators with lower numbers do.
    Broken { operator: u32 },
}
