// The answer about the mutex groups of a layered task as it goes out, with or without the reasons why groups aren't exclusive.
ghost use Rattle.std.specs.Prelude.{◌≡◌, [], ◌∷◌, ◌++◌, false, length, IfOk, IsFalse, IsSomeAnd, IsTrue, codes, map};
ghost use Rattle.sas_lines.specs.Lines.{text};
ghost use Rattle.sas_answers.specs.GroupWords as words;
ghost use Rattle.sas_answers.specs.GroupWords.{group_line};
ghost use Rattle.sas_groups.specs.Verdicts.{AreJointVerdicts};
ghost use Rattle.sas_mutex.specs.Failures.{AreFailures};
ghost use Rattle.sas_task_reasons.specs.WhyGroups.{AreReasons, GroupsAnswerWith, reason_at, why_lines};
ghost use Rattle.sas_answers.specs.Ending.{EndsCounting, Writes};
ghost use Rattle.sas_answers.specs.Sink.{Pushes};
ghost use Rattle.sas_answers.specs.Words.{line, word_bytes};
ghost use Rattle.sas_answers.specs.Line.{reasons_text};
ghost use Rattle.sas_task_reasons.specs.WhyGroups as spec;

use crate::facts::member_of;
use crate::reason::Reason;
use crate::reasons::group_reasons;
use sas_answers::{Line, NameSource, Pieces, Sink, Status, ToolFault, Word, Words, push_lines};
use sas_core::Items;
use sas_flat::FlatTask;
use sas_lines::Watched;
use sas_meaning::Layered;
use sas_mutex::{Failure, GroupVerdicts, Verdict, joint_verdicts};
use std::alloc::{AllocError, Global};
use std::io::Write;

/// Writes the answer about the mutex groups of a layered task: the verdict on each, and if wanted, after it the reason where the group
/// isn't exclusive. Returns `Yes` if all are. The names in the reasons are looked up as they go out, in pieces: they may make the answer
/// far longer than the task. If an `Err` isn't a failed write, it is `Memory`, and nothing was written: all memory is allocated before the
/// first byte. Not to be called after a failure.
pub fn write_groups<W: Write>(
    alloc: Global,
    with_reasons: bool,
    task: &Layered<FlatTask>,
    out: &mut Watched<W>,
) -> Result<Status, ToolFault>
    requires { out.old.failed ≡ false }
    ensures { Writes W.contents
        (EndsCounting (λ output. IsSomeAnd output (GroupsAnswerWith with_reasons task.now)))
        out.old out.new result }
{
    let found = joint_verdicts(alloc, task, with_reasons)?;
    let reasons = wanted_reasons(alloc, with_reasons, task, &found)?;
    let all = found.verdicts.as_slice();
    let mut pieces = Pieces::new(alloc)?;
    let mut sink = Sink::new(groups_status(all), &mut pieces, out);
    push_groups(&mut sink, task.task(), all, reasons.as_slice());
    sink.finish()
}

/// Returns the reasons for the verdicts if they are wanted, and otherwise none.
fn wanted_reasons(
    alloc: Global,
    with_reasons: bool,
    task: &Layered<FlatTask>,
    found: &GroupVerdicts,
) -> Result<Items<Option<Reason>>, AllocError>
    requires joint { AreJointVerdicts task.now found.now.verdicts }
    requires failures { AreFailures task.now found.now.verdicts found.now.failures }
    requires for_each { IsTrue with_reasons
        → length found.now.failures ≡ length task.now.groups }
    ensures none { IsFalse with_reasons → IfOk result (λ reasons. reasons ≡ []) }
    ensures wanted { IsTrue with_reasons
        → IfOk result (λ reasons. AreReasons task.now found.now.verdicts reasons) }
{
    if with_reasons {
        group_reasons(alloc, task, found)
    } else {
        Ok(Items::new(alloc))
    }
}

/// Returns `Yes` if all groups are exclusive, else `No`.
fn groups_status(verdicts: &[Verdict]) -> Status
    ensures { result ≡ words.groups_status verdicts.now }
{
    for verdict in verdicts {
        if *verdict != Verdict::Exclusive {
            return Status::No;
        }
    }
    Status::Yes
}

/// Adds the lines of all groups, each with its end, to the text.
fn push_groups<W: Write>(
    sink: &mut Sink<'_, W>,
    task: &FlatTask,
    verdicts: &[Verdict],
    reasons: &[Option<Reason>],
)
    ensures { Pushes W.contents sink.old sink.new
        (text (why_lines task.now verdicts.now reasons.now)) }
{
    for (place, verdict) in verdicts.iter().enumerate() {
        push_group(sink, task, place, *verdict, reason_of(reasons, place));
    }
}

/// Returns the reason at this place, if there is one.
fn reason_of(reasons: &[Option<Reason>], place: usize) -> Option<Reason>
    ensures { result ≡ reason_at reasons.now place }
{
    reasons.get(place).copied().unwrap_or(None)
}

/// Adds the lines of the group at this place, each with its end, to the text.
fn push_group<W: Write>(
    sink: &mut Sink<'_, W>,
    task: &FlatTask,
    place: usize,
    verdict: Verdict,
    reason: Option<Reason>,
)
    ensures { Pushes W.contents sink.old sink.new
        (text (spec.explained_group_lines task.now place verdict reason)) }
{
    push_verdict(sink, place, verdict);
    if let Some(reason) = reason {
        push_why(sink, task, place, reason);
    }
}

/// Adds the line of the verdict on the group at this place, and its end.
fn push_verdict<W: Write>(sink: &mut Sink<'_, W>, place: usize, verdict: Verdict)
    ensures { Pushes W.contents sink.old sink.new
        (group_line place verdict ++ 10 ∷ []) }
{
    let group = Word::Number(place as u64);
    match verdict {
        Verdict::Exclusive => push_group_words(sink, &[group, Word::Text(b"exclusive")]),
        Verdict::Derived => push_group_words(sink, &[group, Word::Text(b"derived")]),
        Verdict::Initial => push_group_words(
            sink,
            &[group, Word::Text(b"not shown: initial state")],
        ),
        Verdict::Broken { operator } => {
            let words = Word::Text(b"not shown: operator");
            let number = Word::Number(u64::from(operator));
            push_group_words(sink, &[group, words, number])
        }
    }
}

/// Adds the line of the word for a group and these words, and its end.
fn push_group_words<W: Write>(sink: &mut Sink<'_, W>, words: &[Word<'_>])
    ensures { Pushes W.contents sink.old sink.new
        (line 0 (codes "group" ∷ map word_bytes words.now) ++ 10 ∷ []) }
{
    let line = Words {
        first: b"group",
        rest: words,
    };
    sink.push_line(line);
}

/// Adds the lines of the reason why the group at this place isn't exclusive, each with its end.
fn push_why<W: Write>(sink: &mut Sink<'_, W>, task: &FlatTask, group: usize, reason: Reason)
    ensures { Pushes W.contents sink.old sink.new
        (reasons_text task.now [] (spec.reason_lines task.now group reason)) }
{
    let named = NameSource { task, plan: None };
    match reason {
        Reason::OnDerived { fact } => push_lines(sink, &named, &[Line::Derived { fact }]),
        Reason::HoldsTwo { first, second } => {
            let lines = [Line::Holds { fact: first }, Line::Holds { fact: second }];
            push_lines(sink, &named, &lines)
        }
        Reason::Breaks { operator, failure } => {
            let lines = failure_lines(task, group, operator, failure);
            push_lines(sink, &named, &lines)
        }
    }
}

/// Returns the lines of how the operator fails to keep the group at this place.
fn failure_lines(task: &FlatTask, group: usize, operator: u32, failure: Failure) -> [Line; 3]
    ensures { result ≡ Line.NamedOperator operator
        ∷ spec.failure_lines task.now group operator failure }
{
    match failure {
        Failure::SetsTwo { effect, other } => [
            Line::NamedOperator { operator },
            Line::EffectSets { operator, effect },
            Line::EffectSets {
                operator,
                effect: other,
            },
        ],
        Failure::MayStay { effect, place } => [
            Line::NamedOperator { operator },
            Line::EffectSets { operator, effect },
            Line::MayRemain {
                fact: member_of(task, group, place),
            },
        ],
    }
}
