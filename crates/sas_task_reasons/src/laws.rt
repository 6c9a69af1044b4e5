// Laws of the reasons.
ghost use Rattle.std.specs.Prelude.{◌≡◌, ◌≢◌, ℕ, ◌<◌, Bool, List, length};
ghost use Rattle.sas_core.specs.declared.parts.Fact.{Fact};
ghost use Rattle.sas_core.specs.declared.parts.Operator.{Operator};
ghost use Rattle.sas_core.specs.declared.parts.Parts.{Parts};
ghost use Rattle.sas_groups.specs.declared.verdict.Verdict.{Verdict};
ghost use Rattle.sas_groups.specs.declared.verdict.Verdict.TheVariants.{Exclusive};
ghost use Rattle.sas_groups.specs.Clashes.{Keeps};
ghost use Rattle.sas_groups.specs.Families.{IsGroupOfOr};
ghost use Rattle.sas_groups.specs.Verdicts.{IsJointVerdict};
ghost use Rattle.sas_mutex.specs.declared.failures.Failure.{Failure};
ghost use Rattle.sas_task_reasons.specs.declared.reason.Reason.{Reason};
ghost use Rattle.sas_mutex.specs.Failures.{IsFailure, IsFirstFailure};
ghost use Rattle.sas_task_reasons.specs.WhyGroups.{IsReason};
ghost use Rattle.sas_task_reasons.specs.ReasonLaws.{LayerReasonsAreWhole};

/// States that the reasons leave out nothing where the fault is the first of the task's layers: each part and each layer that a line
/// names exists. For `two values` the other rule is the lowest that derives another value, and it comes before the rule at fault.
pub fn layer_reasons_law()
    ensures { LayerReasonsAreWhole }
{}

/// Laws about reasons. The groups of a family and the group itself are assumed to be exclusive.
/// - An operator that fails to keep a group doesn't keep it. If it doesn't keep the group, it can't be that it has no failure.
/// - If it doesn't keep the group, it can't be that it has no first failure, and it has at most one.
/// - Each group that isn't exclusive has at most one reason, and it can't be that it has none.
pub fn reason_laws()
    ensures not_kept { (p : Parts) (family : ℕ → Bool) (o : Operator) (group : List Fact)
        (failure : Failure) → IsFailure (IsGroupOfOr p family group) o group failure
        → Keeps (IsGroupOfOr p family group) o group → ⊥ }
    ensures fails { (p : Parts) (family : ℕ → Bool) (o : Operator) (group : List Fact)
        → (Keeps (IsGroupOfOr p family group) o group → ⊥)
        → ((failure : Failure) → IsFailure (IsGroupOfOr p family group) o group failure → ⊥) → ⊥ }
    ensures some_first { (p : Parts) (family : ℕ → Bool) (o : Operator) (group : List Fact)
        → (Keeps (IsGroupOfOr p family group) o group → ⊥)
        → ((failure : Failure) → IsFirstFailure (IsGroupOfOr p family group) o group failure → ⊥)
        → ⊥ }
    ensures one_first { (p : Parts) (family : ℕ → Bool) (o : Operator) (group : List Fact)
        (a b : Failure) → IsFirstFailure (IsGroupOfOr p family group) o group a
        → IsFirstFailure (IsGroupOfOr p family group) o group b → a ≡ b }
    ensures some_reason { (p : Parts) (place : ℕ) (verdict : Verdict) → place < length p.groups
        → IsJointVerdict p place verdict → verdict ≢ Exclusive
        → ((reason : Reason) → IsReason p place verdict reason → ⊥) → ⊥ }
    ensures one_reason { (p : Parts) (place : ℕ) (verdict : Verdict) (a b : Reason)
        → IsReason p place verdict a → IsReason p place verdict b → a ≡ b }
{}
