// The contents of a task file as plain data. `Parts` may violate rules of the format; a `Task` can't.
use crate::items::Items;

/// A fact: a variable and one of its values, each given by its index, counted from 0.
#[derive(Clone, Copy, Debug, PartialEq, Eq, PartialOrd, Ord, Hash)]
pub struct Fact {
    pub var: u32,
    pub value: u32,
}

/// A variable. A basic variable has no layer. A derived variable has an axiom layer, and rules set its value.
#[derive(Debug, PartialEq, Eq, Drop)]
pub struct Variable {
    pub name: Items<u8>,
    pub layer: Option<u32>,
    /// The names of its values.
    pub values: Items<Items<u8>>,
}

/// A conditional effect: if its conditions hold, the variable gets the new value. The old value, if given, is a precondition of the
/// operator, even if the effect doesn't fire.
#[derive(Debug, PartialEq, Eq, Drop)]
pub struct Effect {
    pub conditions: Items<Fact>,
    pub var: u32,
    pub old: Option<u32>,
    pub new: u32,
}

/// An operator: its name, its prevail conditions, its effects and the number on its cost line.
#[derive(Debug, PartialEq, Eq, Drop)]
pub struct Operator {
    pub name: Items<u8>,
    pub prevail: Items<Fact>,
    pub effects: Items<Effect>,
    pub cost: u32,
}

/// A rule (axiom) for a derived variable: if its conditions hold, the variable gets the new value. A rule has the form of an effect.
pub type Rule = Effect;

/// The contents of a task file, in the order of its sections.
#[derive(Debug, PartialEq, Eq, Drop)]
pub struct Parts {
    /// True for metric 1 (an operator costs the number on its cost line), false for metric 0 (each operator costs 1).
    pub metric: bool,
    pub variables: Items<Variable>,
    /// The mutex groups.
    pub groups: Items<Items<Fact>>,
    /// The state section: the value of each variable in order. For a derived variable this is its default.
    pub init: Items<u32>,
    pub goal: Items<Fact>,
    pub operators: Items<Operator>,
    pub rules: Items<Rule>,
}
