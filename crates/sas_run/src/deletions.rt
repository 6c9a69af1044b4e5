// The facts that a step makes false.
use sas_core::Fact;

/// The facts that the last step made false. Noting them takes time, so it is done only where they are used.
#[derive(Drop)]
pub struct DeletedFacts {
    /// Whether steps note these facts.
    pub noted: bool,
    /// The facts. If they aren't noted, the list is empty.
    pub facts: Vec<Fact>,
}
