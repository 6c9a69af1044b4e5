// The answers about plans, one after another, and about all of them.
ghost use Rattle.std.specs.Prelude.{◌≡◌, ◌↔◌, ◌⊎◌, ◌<◌, ◌++◌, ℕ, List, [], length, codes, decimal, false, Option, IfOk, IfErr, IsErrAnd, IsTrue, OnOk, Err, IfSome, slice_index_or};
ghost use Rattle.std.specs.Io.KnownBytes.{Appends};
ghost use Rattle.sas_answers.specs.Ending.{IsWrite};
ghost use Rattle.sas_requests.specs.Inputs.{tool_fault};
ghost use Rattle.sas_requests.specs.Judged.{IsJudged, Judged, labelled, summary_of};
ghost use Rattle.sas_requests.specs.InTurn.{EndsAt, IsOpened, OpensFirst, OpensInTurn};
ghost use Rattle.sas_requests.specs.Judging.{AreAnswered, HoldsOf, IsUnsaid, Judges, JudgesPlans};

use crate::inputs::{JudgeFault, PlanInputs, judge_ended};
use crate::plans::load;
use crate::tally::Tally;
use crate::verdicts::{Judge, judge_plan};
use sas_answers::{Answer, Status};
use sas_flat::FlatTask;
use sas_lines::{Watched, push_number};
use sas_meaning::Layered;
use std::alloc::{AllocError, Global};
use std::io::Write;

/// Judges the plans of a layered task. Then a line for each, which may have reasons behind it, and the last line go out, with the status
/// `Yes` if all plans are valid.
pub fn answer_plans<S: PlanInputs, W: Write>(
    alloc: Global,
    reasons: bool,
    layered: Layered<FlatTask>,
    plans: &mut S,
    out: &mut Watched<W>,
) -> Result<Status, JudgeFault>
    requires { out.old.failed ≡ false }
    ensures judges { JudgesPlans reasons layered (S.bytes plans.old) (S.labels plans.old)
        (Appends (W.contents out.old.device) (W.contents out.new.device)) result }
    ensures nothing { IfErr result (λ e. IsWrite (tool_fault e) ⊎ (out.new ≡ out.old)) }
    ensures opens { (task : Option (List ℕ)) → OpensInTurn S.open_gives task
        (length (S.labels plans.old)) plans.old plans.new result }
    ensures labels { S.labels plans.new ≡ S.labels plans.old }
    ensures writes { IsErrAnd result (λ e. IsWrite (tool_fault e)) ↔ IsTrue out.new.failed }
{
    let loaded = load(alloc, layered)?;
    let mut judge = Judge { loaded, reasons };
    let mut text = Vec::new(alloc);
    let answered = answer_each(alloc, &mut judge, plans, &mut text);
    drop(judge);
    let tally = answered?;
    push_summary(&mut text, tally, plans)?;
    let status = if tally.valid == plans.count() {
        Status::Yes
    } else {
        Status::No
    };
    judge_ended(Answer { text, status }.write_lines(out))
}

/// Adds what is reported of each plan, and returns how many are valid, and the best of these.
fn answer_each<S: PlanInputs>(
    alloc: Global,
    judge: &mut Judge,
    plans: &mut S,
    text: &mut Vec<u8>,
) -> Result<Tally, JudgeFault>
    requires { text.old.items ≡ [] }
    ensures ok { IfOk result (AreAnswered judge.old.reasons judge.old.loaded (S.bytes plans.old)
        (S.labels plans.old) (length (S.labels plans.old)) text.new.items) }
    ensures err { IfErr result
        (IsUnsaid judge.old.reasons judge.old.loaded (S.bytes plans.old)) }
    ensures opened { IfOk result
        (λ _. OpensFirst S.open_gives (length (S.labels plans.old)) plans.old plans.new) }
    ensures fault { IfErr result (λ why. (task : Option (List ℕ)) → OpensInTurn S.open_gives task
        (length (S.labels plans.old)) plans.old plans.new (Err why)) }
    ensures labels { S.labels plans.new ≡ S.labels plans.old }
{
    let mut tally = Tally::new();
    for number in 0..plans.count() {
        let cost = answer_one(alloc, judge, plans, number, text)?;
        tally.add(number, cost);
    }
    Ok(tally)
}

/// Adds what is reported of the plan with this number, and returns its cost if it is valid.
fn answer_one<S: PlanInputs>(
    alloc: Global,
    judge: &mut Judge,
    plans: &mut S,
    number: usize,
    text: &mut Vec<u8>,
) -> Result<Option<u64>, JudgeFault>
    requires { number < length (S.labels plans.old) }
    ensures ok { IfOk result (λ cost. (judged : Judged)
        × HoldsOf (S.bytes plans.old number)
        (λ c. IsJudged judge.old.reasons judge.old.loaded c judged)
        × (text.new.items ≡ text.old.items
        ++ labelled (slice_index_or (S.labels plans.old) number [], judged))
        × (judged.cost ≡ cost)) }
    ensures err { IfErr result (λ why. Judges judge.old.reasons judge.old.loaded
        (S.bytes plans.old number) (Err (tool_fault why))) }
    ensures opened { IfOk result (λ _. IsOpened S.open_gives number plans.old plans.new) }
    ensures fault { IfErr result (EndsAt S.open_gives number plans.old plans.new) }
    ensures same { judge.new ≡ judge.old }
    ensures labels { S.labels plans.new ≡ S.labels plans.old }
    ensures later { (k : ℕ) → number < k → S.bytes plans.new k ≡ S.bytes plans.old k }
{
    let report = judge_plan(alloc, judge, plans, number)?;
    let cost = report.cost;
    let pushed = push_labelled(text, plans.label(number), report.answer.text.as_slice());
    drop(report);
    pushed?;
    Ok(cost)
}

/// Adds the label, and then the answer.
fn push_labelled(text: &mut Vec<u8>, label: &[u8], answer: &[u8]) -> Result<(), AllocError>
    ensures { OnOk result (text.new.items
        ≡ text.old.items ++ (label.now ++ codes ": " ++ answer.now)) }
{
    text.extend_from_slice(label)?;
    text.extend_from_slice(b": ")?;
    text.extend_from_slice(answer)
}

/// Adds the last line: how many plans there are, how many of them are valid, and the best of these.
fn push_summary<S: PlanInputs>(
    text: &mut Vec<u8>,
    tally: Tally,
    plans: &S,
) -> Result<(), AllocError>
    requires { IfSome tally.best (λ best. best.number < length (S.labels plans.now)) }
    ensures { OnOk result (text.new.items
        ≡ text.old.items ++ summary_of (S.labels plans.now) tally) }
{
    push_number(text, plans.count() as u128)?;
    text.extend_from_slice(b" plans, ")?;
    push_number(text, tally.valid as u128)?;
    text.extend_from_slice(b" valid")?;
    if let Some(best) = tally.best {
        push_best(text, best.cost, plans.label(best.number))?;
    }
    text.push(b'\n')?;
    Ok(())
}

/// Adds what a plan that costs least costs, and its label.
fn push_best(text: &mut Vec<u8>, cost: u64, label: &[u8]) -> Result<(), AllocError>
    ensures { OnOk result (text.new.items
        ≡ text.old.items ++ (codes ", best cost " ++ decimal cost ++ codes ": " ++ label.now)) }
{
    text.extend_from_slice(b", best cost ")?;
    push_number(text, u128::from(cost))?;
    text.extend_from_slice(b": ")?;
    text.extend_from_slice(label)
}
