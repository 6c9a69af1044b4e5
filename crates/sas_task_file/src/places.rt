// The places between lines of a task file.

use crate::marks::{Due, Location};

/// What is expected next in a task file.
#[derive(Clone, Copy, PartialEq, Eq)]
pub enum Place {
    VersionBegin,
    VersionNumber,
    VersionEnd,
    MetricBegin,
    MetricNumber,
    MetricEnd,
    VariableCount,
    /// The next variable, or after the last one the number of groups.
    Variables,
    VariableName,
    VariableLayer,
    VariableRange,
    /// The next value, or after the last one the end of the variable.
    VariableValues,
    /// The next group, or after the last one the state.
    Groups,
    GroupSize,
    /// The next fact, or after the last one the end of the group.
    GroupFacts,
    /// The value of the next variable, or after the last one the end of the state.
    StateValues,
    GoalBegin,
    GoalSize,
    /// The next fact, or after the last one the end of the goal.
    GoalFacts,
    OperatorCount,
    /// The next operator, or after the last one the number of rules.
    Operators,
    OperatorName,
    PrevailCount,
    /// The next prevail condition, or after the last one the number of effects.
    Prevail,
    /// The next effect, or after the last one the cost.
    Effects,
    OperatorEnd,
    /// The next rule, or after the last one nothing.
    Rules,
    RuleSize,
    /// The next condition, or after the last one the head.
    RuleConditions,
    RuleEnd,
}

/// What a line adds to the task. A name is the line itself.
#[derive(Clone, Copy)]
pub enum Event {
    /// Nothing: a fixed word, the version, a number of variables, groups, goal facts, operators or rules.
    Nothing,
    /// The metric.
    Metric,
    /// The name of a variable or an operator.
    Name,
    /// The axiom layer of a variable.
    Layer,
    /// The values of a variable follow.
    Values,
    /// The name of a value.
    Value,
    /// The variable is complete.
    Variable,
    /// The facts of a group, the prevail conditions of an operator, or the conditions of a rule follow.
    Facts,
    /// One of these.
    Fact,
    /// The group is complete.
    Group,
    /// The value of the next variable in the initial state.
    State,
    /// A fact of the goal.
    Goal,
    /// The effects of an operator follow.
    Effects,
    /// One of these.
    Effect,
    /// The cost of an operator, which is then complete.
    Operator,
    /// The head of a rule, which is then complete.
    Rule,
}

/// How a line moves the tracker.
#[derive(Clone, Copy)]
pub enum Move {
    /// To another place.
    To(Place),
    /// The line is the number of variables, groups, operators or rules, which follow.
    Count(Place),
    /// The line begins one of these.
    Begin(Place),
    /// The line is the number of facts or effects, which follow.
    List(Place),
    /// The line is the number of values of a variable, which follow.
    Range(Place),
    /// The line begins the initial state. A value for each variable follows.
    State(Place),
    /// The line is one of these values, facts or effects.
    Item,
}

/// A row of the table of places: the location of the next line, what is expected there, what the line adds, and how it moves the tracker.
#[derive(Clone, Copy)]
pub struct Row {
    pub at: Location,
    pub due: Due,
    pub adds: Event,
    pub moves: Move,
}
