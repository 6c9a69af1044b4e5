// The columns of a flat task.
use crate::effects::Effects;
use crate::lists::Lists;
use crate::operators::Operators;
use crate::variables::Variables;
use sas_core::{Fact, Items};

/// The contents of a task in a few blocks of memory. They may violate the rules of the format.
#[derive(Drop)]
pub struct TaskColumns {
    pub metric: bool,
    pub variables: Variables,
    pub groups: Lists<Fact>,
    pub init: Items<u32>,
    pub goal: Items<Fact>,
    pub operators: Operators,
    pub rules: Effects,
}
