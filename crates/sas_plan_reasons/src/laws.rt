// Laws of reasons.
ghost use Rattle.std.specs.Prelude.{◌≡◌, ◌≢◌, ◌⊎◌, ◌↔◌, ℕ, ◌<◌, ◌≤◌, Bool, false, IsTrue, IsFalse, List, [], ◌∷◌, ◌++◌, length, map, Some, bytes_eq, filter, find, All, AllPairs, Contains, slice_index, sum_by};
ghost use Rattle.std.specs.Char.{to_ascii_lowercase};
ghost use Rattle.std.specs.List.Sorted.{IsPermutation};
ghost use Rattle.sas_core.specs.declared.parts.Operator.{Operator};
ghost use Rattle.sas_core.specs.declared.parts.Parts.{Parts};
ghost use Rattle.sas_core.specs.PlanParts.{PlanParts};
ghost use Rattle.sas_core.specs.Variables.{IsDerived};
ghost use Rattle.sas_core.specs.declared.parts.Fact.{Fact};
ghost use Rattle.sas_core.specs.Grounded.{rule_at};
ghost use Rattle.sas_meaning.specs.States.{AllHold};
ghost use Rattle.sas_meaning.specs.Layers.{IsBasic, IsOnLayer, default_of, CanFire, IsLayered};
ghost use Rattle.sas_meaning.specs.Settled.{differs, IsSettled};
ghost use Rattle.sas_meaning.specs.Steps.{preconditions, Agree};
ghost use Rattle.sas_meaning.specs.Places.{places};
ghost use Rattle.sas_names.specs.Named.{IsNamed};
ghost use Rattle.sas_run.specs.declared.plan_check.PlanFault.{PlanFault};
ghost use Rattle.sas_run.specs.Plans.{IsApplicable};
ghost use Rattle.sas_run.specs.Verdicts.{IsFirstMissed, IsFaultOf};
ghost use Rattle.sas_run.specs.Runs.{Run, state_at, StepsSucceed};
ghost use Rattle.sas_plan_reasons.specs.Lowest.{AreLowest};
ghost use Rattle.sas_plan_reasons.specs.Words.{separates, words, are_permuted};
ghost use Rattle.sas_plan_reasons.specs.MayMean.{similar_operator, IsOther, MayMean};
ghost use Rattle.sas_plan_reasons.specs.Derivation.{has_rule, IsOrder, IsRuleOf, StandsBefore, IsDerivation};
ghost use Rattle.sas_answers.specs.declared.line.Line.{Line};
ghost use Rattle.sas_answers.specs.Line.{is_rule_line};
ghost use Rattle.sas_plan_reasons.specs.Lines.{with_lines};
ghost use Rattle.sas_plan_reasons.specs.Cause.{value_at, IsSince, fails, can_be_given};
ghost use Rattle.sas_plan_reasons.specs.WhyPlan.{ConflictsWith, IsWhy};
ghost use Rattle.sas_core.specs.Tasks.{cost_of};
ghost use Rattle.sas_core.specs.WellRanged.{WellRanged};
ghost use Rattle.sas_answers.specs.declared.ending.Status.TheVariants.{Yes};
ghost use Rattle.sas_answers.specs.Ending.{Output};
ghost use Rattle.sas_lines.specs.Lines.{text};
ghost use Rattle.sas_plan_reasons.specs.Traced.{TraceVerdict};
ghost use Rattle.sas_plan_reasons.specs.VerdictBy.{VerdictWith};
ghost use Rattle.sas_plan_reasons.specs.ReasonLaws.{IsSimilar, RequiresLower, RestsOnEarlier, replayed};

/// Ensures the laws of changes. In a run each variable has exactly one last change, and keeps its value from there on.
pub fn since_laws()
    ensures some_since { (run : Run) (var : ℕ) → 0 < length run.states → (since : ℕ)
        × IsSince run var since }
    ensures one_since { (run : Run) (var a b : ℕ) → IsSince run var a → IsSince run var b → a ≡ b }
    ensures same_since { (run : Run) (var since : ℕ) → IsSince run var since → (later : ℕ)
        → since ≤ later → later < length run.states
        → value_at run later var ≡ value_at run since var }
{}

/// Ensures the laws of similar names. The words of a name are those before a separator and those behind it, and don't depend on the case of
/// letters. Words are others in another order exactly if each is among both equally often. The operator that is reported is the lowest with
/// the same words in the same order; if there is none, in some order. Either no step could also mean another operator, or exactly one is
/// the first, and the lowest such operator is unique.
pub fn name_laws()
    ensures separator { (front behind : List ℕ) (byte : ℕ) → IsTrue (separates byte)
        → words (front ++ byte ∷ behind) ≡ words front ++ words behind }
    ensures no_case { (name : List ℕ) → words (map to_ascii_lowercase name) ≡ words name }
    ensures permuted { (a b : List (List ℕ)) → IsTrue (are_permuted a b) ↔ IsPermutation a b }
    ensures similar { (p : Parts) (name : List ℕ) → IsSimilar p name (similar_operator p name) }
    ensures some_other { (p : Parts) (run : Run)
        → ((step operator : ℕ) × MayMean p run step operator)
        ⊎ ((k operator : ℕ) → IsOther p run k operator → ⊥) }
    ensures one_other { (p : Parts) (run : Run) (step operator step' operator' : ℕ)
        → MayMean p run step operator → MayMean p run step' operator' → (step ≡ step')
        × (operator ≡ operator') }
{}

/// Ensures the laws of derivations, in a settled state of a layered task.
/// - There is exactly one order of derived values. No two of its rules stand before each other.
/// - A derived variable has a rule in the order exactly if it differs from its default, and at most one. The conditions of this rule hold in
///   the state, and it sets the variable to its value.
/// - Each condition of this rule is on a basic variable, or requires the default of a variable on a lower layer, or requires another value
///   of a variable whose rule stands before.
/// - Each variable has exactly one derivation. If it has no rule, this is empty. Otherwise its rule is the last one.
pub fn derivation_laws()
    ensures some_order { (p : Parts) (s : List ℕ) → (order : List ℕ) × IsOrder p s order }
    ensures one_order { (p : Parts) (s a b : List ℕ) → IsOrder p s a → IsOrder p s b → a ≡ b }
    ensures no_circle { (p : Parts) (s order : List ℕ) (a b : ℕ) → IsOrder p s order
        → StandsBefore order a b → StandsBefore order b a → ⊥ }
    ensures some_rule { (p : Parts) (s order : List ℕ) (layer var : ℕ) → IsLayered p
        → IsSettled p s → IsOrder p s order → IsOnLayer p layer var
        → IsTrue (has_rule p order var) ↔ IsTrue (differs p s var) }
    ensures one_rule { (p : Parts) (s order : List ℕ) (var a b : ℕ) → IsOrder p s order
        → IsRuleOf p order var a → IsRuleOf p order var b → a ≡ b }
    ensures fires { (p : Parts) (s order : List ℕ) (var rule : ℕ) → IsLayered p → IsSettled p s
        → IsOrder p s order → IsRuleOf p order var rule
        → AllHold (slice_index s) (rule_at p rule).conditions
        × ((rule_at p rule).new ≡ slice_index s var) }
    ensures looks_down { (p : Parts) (s order : List ℕ) (var rule : ℕ) → IsLayered p
        → IsSettled p s → IsOrder p s order → IsRuleOf p order var rule
        → All (λ (c : Fact). IsBasic p c.var
        ⊎ (RequiresLower p var c ⊎ RestsOnEarlier p order rule c))
        (rule_at p rule).conditions }
    ensures some_derivation { (p : Parts) (s : List ℕ) (var : ℕ) → (rules : List ℕ)
        × IsDerivation p s var rules }
    ensures one_derivation { (p : Parts) (s : List ℕ) (var : ℕ) (a b : List ℕ)
        → IsDerivation p s var a → IsDerivation p s var b → a ≡ b }
    ensures none { (p : Parts) (s : List ℕ) (var : ℕ) (rules : List ℕ)
        (d : IsDerivation p s var rules) → IsFalse (has_rule p d.order var) → rules ≡ [] }
    ensures own_last { (p : Parts) (s : List ℕ) (var rule : ℕ) (rules : List ℕ)
        (d : IsDerivation p s var rules) → IsRuleOf p d.order var rule → (front : List ℕ)
        × (rules ≡ front ++ rule ∷ []) }
{}

/// Ensures the laws of causes.
/// - If a rule can give a derived variable a value that it doesn't have, the variable has its default, and each of its rules that can fire
///   has a condition that doesn't hold.
/// - An operator that isn't applicable has a precondition that doesn't hold. The operators of a name have exactly this name. The first goal
///   fact that is reported is the first that doesn't hold.
/// - If effects that fire don't agree, two of them conflict, and exactly one such pair is reported.
/// - Removing repeated lines of rules loses no line, and leaves each line of a rule once.
pub fn cause_laws()
    ensures default { (p : Parts) (s : List ℕ) (fact : Fact) → IsLayered p → IsSettled p s
        → IsDerived p.variables fact.var → IsTrue (can_be_given p fact) → IsTrue (fails s fact)
        → slice_index s fact.var ≡ default_of p fact.var }
    ensures each_fails { (p : Parts) (s : List ℕ) (rule : ℕ) → IsLayered p → IsSettled p s
        → rule < length p.rules → CanFire p (rule_at p rule)
        → slice_index s (rule_at p rule).var ≡ default_of p (rule_at p rule).var → (c : Fact)
        × (find (fails s) (rule_at p rule).conditions ≡ Some c) }
    ensures some_fails { (s : List ℕ) (o : Operator) → filter (fails s) (preconditions o) ≡ []
        → IsApplicable s o }
    ensures named { (p : Parts) (name : List ℕ) (operator : ℕ)
        → Contains (places (λ (o : Operator). bytes_eq o.name name) p.operators) operator
        ↔ IsNamed p name operator }
    ensures first_goal { (p : Parts) (s : List ℕ) (index : ℕ)
        → IsFirstMissed (slice_index s) p.goal index → (behind : List ℕ)
        × (places (fails s) p.goal ≡ index ∷ behind) }
    ensures some_conflict { (s : List ℕ) (o : Operator) → (Agree s o.effects → ⊥) → (e d : ℕ)
        × AreLowest (ConflictsWith s o) e d }
    ensures one_conflict { (s : List ℕ) (o : Operator) (e d e' d' : ℕ)
        → AreLowest (ConflictsWith s o) e d → AreLowest (ConflictsWith s o) e' d' → (e ≡ e')
        × (d ≡ d') }
    ensures none_lost { (lines : List Line) (line : Line) → Contains (with_lines [] lines) line
        ↔ Contains lines line }
    ensures rules_once { (lines : List Line)
        → AllPairs (λ a b. IsTrue (is_rule_line a) → a ≢ b) (with_lines [] lines) }
{}

/// Ensures that each fault of a plan of a layered task has exactly one list of reasons.
pub fn why_laws()
    ensures some { (p : Parts) (plan : PlanParts) (fault : PlanFault) → WellRanged p → IsLayered p
        → IsFaultOf p plan fault → (lines : List Line) × IsWhy p plan fault lines }
    ensures one { (p : Parts) (plan : PlanParts) (fault : PlanFault) (a b : List Line) → IsLayered p
        → IsWhy p plan fault a → IsWhy p plan fault b → a ≡ b }
{}

/// Ensures the laws of traces. The changes, written over the initial values in turn, give the state after each step. The answer
/// that there is without it follows the trace. The costs of a valid plan's steps add up to its cost. A plan of a layered task has
/// one trace, with reasons and without.
pub fn trace_laws()
    ensures replays { (p : Parts) (run : Run) (k : ℕ) → WellRanged p → StepsSucceed p run
        → k ≤ length run.steps → replayed p run k ≡ state_at run k }
    ensures answer { (reasons : Bool) (p : Parts) (plan : PlanParts) (output : Output)
        → TraceVerdict reasons p plan output → (answer : Output)
        × VerdictWith false reasons p plan answer × (front : List (List ℕ))
        × (output.text ≡ text front ++ answer.text) × (output.status ≡ answer.status) }
    ensures costs { (reasons : Bool) (p : Parts) (plan : PlanParts) (output : Output)
        (trace : TraceVerdict reasons p plan output) → output.status ≡ Yes
        → sum_by (cost_of p) trace.run.operators ≡ plan.cost }
    ensures some { (reasons : Bool) (p : Parts) (plan : PlanParts) → WellRanged p → IsLayered p
        → (output : Output) × TraceVerdict reasons p plan output }
    ensures one { (reasons : Bool) (p : Parts) (plan : PlanParts) (a b : Output) → IsLayered p
        → TraceVerdict reasons p plan a → TraceVerdict reasons p plan b → a ≡ b }
{}
