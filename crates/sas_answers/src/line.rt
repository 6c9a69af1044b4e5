// Lines of reasons.
use sas_core::Fact;

/// A line of reasons, as numbers. Its bytes follow from the task and the plan. Steps count from 1, all else from 0. A line
/// begins with two spaces, unless four are said. L is the line of the task file at which the operator or the rule begins, and a NAME is shown
/// as `shown_name` defines it.
#[derive(Clone, Copy)]
pub enum Line {
    /// `step S NAME`.
    Step { step: usize },
    /// `similar operator I line L NAME`.
    SimilarOperator { operator: u32 },
    /// `operator I line L`.
    Operator { operator: u32 },
    /// `operator I line L NAME`.
    NamedOperator { operator: u32 },
    /// `goal fact I`.
    GoalFact { index: u32 },
    /// Four spaces, `requires VAR VALUE NAME`.
    Requires { fact: Fact },
    /// Four spaces, `actual VAR VALUE NAME`.
    Actual { fact: Fact },
    /// Four spaces, `since the initial state`.
    SinceInitialState,
    /// Four spaces, `since step K NAME`.
    SinceStep { step: usize },
    /// Four spaces, `rule R derives VAR VALUE NAME`.
    RuleDerives { rule: u32 },
    /// Four spaces, `no rule derives it`.
    NoRuleDerives,
    /// Four spaces, `rule R requires VAR VALUE NAME`.
    RuleRequires { rule: u32, fact: Fact },
    /// Four spaces, `effect E sets VAR VALUE NAME`, of this operator.
    ConflictingEffect { operator: u32, effect: u32 },
    /// `metric M`.
    Metric,
    /// `steps S`.
    Steps { count: usize },
    /// `sum of cost lines N`.
    CostLines { sum: u128 },
    /// `step I could also be operator J`.
    CouldBe { step: usize, operator: u32 },
    /// `effect E sets VAR VALUE NAME`, of this operator.
    EffectSets { operator: u32, effect: u32 },
    /// `rule R line L derives VAR VALUE NAME`.
    Rule { rule: u32 },
    /// `condition C requires VAR VALUE NAME`.
    ConditionRequires { condition: u32, fact: Fact },
    /// `old value VAR VALUE NAME`.
    OldValue { fact: Fact },
    /// `default value VAR VALUE NAME`.
    DefaultValue { fact: Fact },
    /// `on layer L`.
    OnLayer { layer: u32 },
    /// `derived VAR VALUE NAME`.
    Derived { fact: Fact },
    /// `holds VAR VALUE NAME`.
    Holds { fact: Fact },
    /// `may remain VAR VALUE NAME`.
    MayRemain { fact: Fact },
    /// `K of N steps name no operator`.
    NamelessSteps { count: usize, steps: usize },
    /// `hint the plan may be of another task`.
    OtherTaskHint,
    /// `if made anyway K of M later steps fail`.
    LaterFailures { count: usize, steps: usize },
    /// Four spaces, `step T NAME`.
    LaterFailure { step: usize },
    /// `if made anyway K of N goal facts fail`.
    FailingGoalLater { count: usize, facts: usize },
    /// `K of N goal facts fail`.
    FailingGoalFacts { count: usize, facts: usize },
    /// `hint with metric 0 each step costs 1`.
    UnitCostHint,
    /// `hint with metric 1 each step costs its operator's cost line`.
    CostLineHint,
}
