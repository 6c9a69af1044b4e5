// How lines of reasons are worded.
ghost use Rattle.std.specs.Prelude.{◌≡◌, ℕ, List};
ghost use Rattle.sas_core.specs.declared.parts.Parts.{Parts};
ghost use Rattle.sas_answers.specs.Line.{line_bytes};
ghost use Rattle.sas_answers.specs.Wording.{line_with, rest_words};

use crate::line::Line;
use sas_core::Fact;

/// What follows the first words of a line.
#[derive(Clone, Copy)]
pub enum LineRest {
    /// Nothing.
    Nothing,
    /// A number.
    Number(u64),
    /// A number that may be larger than a `u64`.
    Sum(u128),
    /// The task's metric.
    Metric,
    /// The number of a step, and its name.
    Step(usize),
    /// The number of an operator, and the line at which it begins.
    OperatorLine(u32),
    /// This, and the operator's name.
    Operator(u32),
    /// The number of a rule, the line at which it begins, and `derives VAR VALUE NAME`.
    Rule(u32),
    /// The number of a step, and that of an operator that it could also be.
    CouldBe(usize, u32),
    /// `VAR VALUE NAME`.
    OfFact(Fact),
    /// `N VERB VAR VALUE NAME`.
    OfPart(Part),
    /// `K of N WHAT`.
    KOfN(u64, u64, &'static [u8]),
}

/// What a part of a task does with a fact.
#[derive(Clone, Copy)]
pub enum Part {
    /// The rule derives its fact.
    Derives(u32),
    /// The operator's effect sets its fact.
    Sets(u32, u32),
    /// A rule or a condition of this number requires the fact.
    Requires(u32, Fact),
}

/// Returns the parts of the line: the spaces and the first words that it begins with, and what follows.
pub fn wording(line: Line) -> (&'static [u8], LineRest)
    ensures { (p : Parts) (steps : List (List ℕ))
        → line_with result.0.now (rest_words p steps result.1) ≡ line_bytes p steps line }
{
    match line {
        Line::Step { step } => (b"  step", LineRest::Step(step)),
        Line::SimilarOperator { operator } => (b"  similar operator", LineRest::Operator(operator)),
        Line::Operator { operator } => (b"  operator", LineRest::OperatorLine(operator)),
        Line::NamedOperator { operator } => (b"  operator", LineRest::Operator(operator)),
        Line::GoalFact { index } => (b"  goal fact", LineRest::Number(index as u64)),
        Line::Requires { fact } => (b"    requires", LineRest::OfFact(fact)),
        Line::Actual { fact } => (b"    actual", LineRest::OfFact(fact)),
        Line::SinceInitialState => (b"    since the initial state", LineRest::Nothing),
        Line::SinceStep { step } => (b"    since step", LineRest::Step(step)),
        Line::RuleDerives { rule } => (b"    rule", LineRest::OfPart(Part::Derives(rule))),
        Line::NoRuleDerives => (b"    no rule derives it", LineRest::Nothing),
        Line::RuleRequires { rule, fact } => (
            b"    rule",
            LineRest::OfPart(Part::Requires(rule, fact)),
        ),
        Line::ConflictingEffect { operator, effect } => (
            b"    effect",
            LineRest::OfPart(Part::Sets(operator, effect)),
        ),
        Line::Metric => (b"  metric", LineRest::Metric),
        Line::Steps { count } => (b"  steps", LineRest::Number(count as u64)),
        Line::CostLines { sum } => (b"  sum of cost lines", LineRest::Sum(sum)),
        Line::CouldBe { step, operator } => (b"  step", LineRest::CouldBe(step, operator)),
        Line::EffectSets { operator, effect } => (
            b"  effect",
            LineRest::OfPart(Part::Sets(operator, effect)),
        ),
        Line::Rule { rule } => (b"  rule", LineRest::Rule(rule)),
        Line::ConditionRequires { condition, fact } => (
            b"  condition",
            LineRest::OfPart(Part::Requires(condition, fact)),
        ),
        Line::OldValue { fact } => (b"  old value", LineRest::OfFact(fact)),
        Line::DefaultValue { fact } => (b"  default value", LineRest::OfFact(fact)),
        Line::OnLayer { layer } => (b"  on layer", LineRest::Number(layer as u64)),
        Line::Derived { fact } => (b"  derived", LineRest::OfFact(fact)),
        Line::Holds { fact } => (b"  holds", LineRest::OfFact(fact)),
        Line::MayRemain { fact } => (b"  may remain", LineRest::OfFact(fact)),
        // The first words are one space. The number stands after the next one.
        Line::NamelessSteps { count, steps } => (
            b" ",
            LineRest::KOfN(count as u64, steps as u64, b"steps name no operator"),
        ),
        Line::OtherTaskHint => (b"  hint the plan may be of another task", LineRest::Nothing),
        Line::LaterFailures { count, steps } => (
            b"  if made anyway",
            LineRest::KOfN(count as u64, steps as u64, b"later steps fail"),
        ),
        Line::LaterFailure { step } => (b"    step", LineRest::Step(step)),
        Line::FailingGoalLater { count, facts } => (
            b"  if made anyway",
            LineRest::KOfN(count as u64, facts as u64, b"goal facts fail"),
        ),
        Line::FailingGoalFacts { count, facts } => (
            b" ",
            LineRest::KOfN(count as u64, facts as u64, b"goal facts fail"),
        ),
        Line::UnitCostHint => (b"  hint with metric 0 each step costs 1", LineRest::Nothing),
        Line::CostLineHint => (
            b"  hint with metric 1 each step costs its operator's cost line",
            LineRest::Nothing,
        ),
    }
}
