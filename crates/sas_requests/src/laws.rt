// Laws of the lines of reasons.
ghost use Rattle.sas_answers.specs.Laws.{IsReasonLine};
ghost use Rattle.sas_requests.specs.FileLine.{FileLine, file_line_bytes};
ghost use Rattle.std.specs.Prelude.{Bool, List, ℕ};
ghost use Rattle.sas_plan_reasons.specs.declared.detail.Detail.{Detail};
ghost use Rattle.sas_requests.specs.declared.question.Request.{Request};
ghost use Rattle.sas_requests.specs.Output.{HasOneOutput, IsLong, ShortOutput};
ghost use Rattle.sas_requests.specs.OutBy.{OutBy};
ghost use Rattle.sas_requests.specs.SameAnswer.{EndsAsPlan, SameAnswer};
ghost use Rattle.sas_requests.specs.Judged.{EachIsThatOfPlan, IsOneLong, JudgeOut, RefusesAsPlan, SamePlans};

/// Ensures that each line of reasons begins with two spaces and contains neither LF nor CR.
pub fn file_reason_laws()
    ensures { (l : FileLine) → IsReasonLine (file_line_bytes l) }
{}

/// What holds of outputs. A request has one output over the same inputs, and it can't have nothing; it has none only where an input
/// passes the limit. With reasons it is the same answer: the status is the same; where it is yes, so is the text; where it is no, the
/// text without reasons is left when the lines that begin with two spaces are taken away. After a trace it is the same answer, too: the
/// output of `plan` follows it, with the same status. Each output without reasons and traces is shorter than 2^64 bytes.
pub fn answer_laws()
    ensures outputs { (detail : Detail) (request : Request) (b c : List ℕ)
        → HasOneOutput (OutBy detail request b c) (IsLong request b c) }
    ensures same { SameAnswer }
    ensures trace { EndsAsPlan }
    ensures short { ShortOutput }
{}

/// What holds of what is printed of many plans: of each it is its label, and then what `plan` prints; a task is refused as
/// by `plan`; there is one output over the same inputs, and it can't have nothing; there is none only where an input passes the
/// limit. With reasons it is the same answer, where no label looks like a reason.
pub fn judge_laws()
    ensures each { EachIsThatOfPlan }
    ensures refuses { RefusesAsPlan }
    ensures outputs { (reasons : Bool) (labels : List (List ℕ)) (b : List ℕ) (cs : List (List ℕ))
        → HasOneOutput (JudgeOut reasons labels b cs) (IsOneLong b cs) }
    ensures same { SamePlans }
{}
