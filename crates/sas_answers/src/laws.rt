// Laws of lines.
ghost use Rattle.std.specs.Prelude.{◌≡◌, ℕ, ◌^◌, ◌<◌, List, IsTrue};
ghost use Rattle.std.specs.List.{AllByRecursion};
ghost use Rattle.sas_core.specs.declared.parts.Parts.{Parts};
ghost use Rattle.sas_answers.specs.declared.line.Line.{Line};
ghost use Rattle.sas_answers.specs.Laws.{IsReasonLine};
ghost use Rattle.sas_answers.specs.Line.{line_bytes, rule_numbers, is_rule_line};

/// Ensures the laws of lines. Each line begins with two spaces, and holds neither LF nor CR. The bytes of a line of a rule, whose numbers
/// are below 2^64, are those of no other line.
pub fn line_laws()
    ensures reasons { (p : Parts) (steps : List (List ℕ)) (l : Line)
        → IsReasonLine (line_bytes p steps l) }
    ensures differ { (p : Parts) (steps : List (List ℕ)) (l other : Line) → IsTrue (is_rule_line l)
        → AllByRecursion (λ number. number < 2 ^ 64) (rule_numbers l)
        → line_bytes p steps l ≡ line_bytes p steps other → l ≡ other }
{}
