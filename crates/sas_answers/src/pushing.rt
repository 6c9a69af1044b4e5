// How lines of reasons go out: names are looked up here.
ghost use Rattle.std.specs.Prelude.{◌≡◌, false, [], ◌∷◌, ◌++◌, map, Some};
ghost use Rattle.sas_answers.specs.Ending.{EndsCounting, Writes};
ghost use Rattle.sas_answers.specs.Sink.{Pushes};
ghost use Rattle.sas_answers.specs.Words.{word_bytes};
ghost use Rattle.sas_answers.specs.Line.{words_of, line_bytes, named_operator, operator_words, reasons_text, rule_words, verb_words};
ghost use Rattle.sas_answers.specs.Wording.{steps_of, part_words, rest_words, line_with};

use crate::answer::Answer;
use crate::ending::{Status, ToolFault};
use crate::line::Line;
use crate::names::{NameSource, given_by, operator_name, set_by, value_name};
use crate::pieces::Pieces;
use crate::sink::Sink;
use crate::wording::{LineRest, Part, wording};
use crate::words::{Word, Words};
use sas_core::{Fact, Grounded};
use sas_flat::FlatTask;
use sas_lines::Watched;
use std::alloc::Global;
use std::io::Write;

/// Writes the verdict, and after it the lines of its reasons. Returns the verdict's status. The text goes out in pieces. If an
/// `Err` isn't a failed write, it is `Memory`, and nothing was written. Not to be called after a failure.
pub fn write_reasons<W: Write>(
    alloc: Global,
    out: &mut Watched<W>,
    verdict: &Answer,
    named: &NameSource<'_>,
    lines: &[Line],
) -> Result<Status, ToolFault>
    requires { out.old.failed ≡ false }
    ensures { Writes W.contents (EndsCounting (λ output. output ≡ Some (record {
      text = verdict.now.text.items
          ++ reasons_text named.now.task.now (steps_of named.now.plan) lines.now;
      status = verdict.now.status;
    }))) out.old out.new result }
{
    // What takes memory comes first.
    let mut pieces = Pieces::new(alloc)?;
    let mut sink = Sink::new(verdict.status, &mut pieces, out);
    sink.push(verdict.text.as_slice());
    push_lines(&mut sink, named, lines);
    sink.finish()
}

/// Adds the lines, each with its end, to the text.
pub fn push_lines<W: Write>(sink: &mut Sink<'_, W>, named: &NameSource<'_>, lines: &[Line])
    ensures { Pushes W.contents sink.old sink.new
        (reasons_text named.now.task.now (steps_of named.now.plan) lines.now) }
{
    for line in lines {
        push_reason(sink, named, *line);
    }
}

/// Adds the line and its end to the text.
fn push_reason<W: Write>(sink: &mut Sink<'_, W>, named: &NameSource<'_>, line: Line)
    ensures { Pushes W.contents sink.old sink.new
        (line_bytes named.now.task.now (steps_of named.now.plan) line ++ 10 ∷ []) }
{
    let (start, rest) = wording(line);
    push_rest(sink, named, start, rest)
}

/// Adds the line that begins so, with this rest, and its end.
fn push_rest<W: Write>(sink: &mut Sink<'_, W>, named: &NameSource<'_>, start: &[u8], rest: LineRest)
    ensures { Pushes W.contents sink.old sink.new
        (line_with start.now (rest_words named.now.task.now (steps_of named.now.plan) rest)
        ++ 10 ∷ []) }
{
    let task = named.task;
    match rest {
        LineRest::Nothing => push_words(sink, start, &[]),
        LineRest::Number(number) => push_words(sink, start, &[Word::Number(number)]),
        LineRest::Sum(sum) => push_words(sink, start, &[Word::Large(sum)]),
        LineRest::Metric => push_words(sink, start, &[Word::Number(u64::from(task.metric()))]),
        LineRest::Step(step) => {
            let words = [Word::Number(step as u64), Word::Name(named.step_name(step))];
            push_words(sink, start, &words)
        }
        LineRest::OperatorLine(operator) => push_operator_line(sink, task, start, operator),
        LineRest::Operator(operator) => push_operator(sink, task, start, operator),
        LineRest::Rule(rule) => push_rule(sink, task, start, rule),
        LineRest::CouldBe(step, operator) => {
            let words = [
                Word::Number(step as u64),
                Word::Text(b"could also be operator"),
                Word::Number(operator as u64),
            ];
            push_words(sink, start, &words)
        }
        LineRest::OfFact(fact) => push_fact(sink, task, start, fact),
        LineRest::OfPart(part) => push_part(sink, task, start, part),
        LineRest::KOfN(count, all, what) => {
            let words = [
                Word::Number(count),
                Word::Text(b"of"),
                Word::Number(all),
                Word::Text(what),
            ];
            push_words(sink, start, &words)
        }
    }
}

/// Adds the line, with these words after its first ones, and its end.
fn push_words<W: Write>(sink: &mut Sink<'_, W>, start: &[u8], words: &[Word<'_>])
    ensures { Pushes W.contents sink.old sink.new
        (line_with start.now (map word_bytes words.now) ++ 10 ∷ []) }
{
    sink.push_line(Words {
        first: start,
        rest: words,
    });
}

/// Adds the line of an operator and the line at which it begins, and its end.
fn push_operator_line<W: Write>(
    sink: &mut Sink<'_, W>,
    task: &FlatTask,
    start: &[u8],
    operator: u32,
)
    ensures { Pushes W.contents sink.old sink.new
        (line_with start.now (operator_words task.now operator) ++ 10 ∷ []) }
{
    let begins = Word::Large(task.operator_line(operator));
    let number = Word::Number(u64::from(operator));
    push_words(sink, start, &[number, Word::Text(b"line"), begins])
}

/// Adds the line of an operator, the line at which it begins, and its name, and its end.
fn push_operator<W: Write>(sink: &mut Sink<'_, W>, task: &FlatTask, start: &[u8], operator: u32)
    ensures { Pushes W.contents sink.old sink.new
        (line_with start.now (named_operator task.now operator) ++ 10 ∷ []) }
{
    let begins = Word::Large(task.operator_line(operator));
    let number = Word::Number(u64::from(operator));
    let name = Word::Name(operator_name(task, operator));
    push_words(sink, start, &[number, Word::Text(b"line"), begins, name])
}

/// Adds the line of a rule, the line at which it begins, and what it derives, and its end.
fn push_rule<W: Write>(sink: &mut Sink<'_, W>, task: &FlatTask, start: &[u8], rule: u32)
    ensures { Pushes W.contents sink.old sink.new
        (line_with start.now (rule_words task.now rule) ++ 10 ∷ []) }
{
    let fact = given_by(task, rule);
    let words = [
        Word::Number(u64::from(rule)),
        Word::Text(b"line"),
        Word::Large(task.rule_line(rule)),
        Word::Text(b"derives"),
        Word::Number(u64::from(fact.var)),
        Word::Number(u64::from(fact.value)),
        Word::Name(value_name(task, fact)),
    ];
    push_words(sink, start, &words)
}

/// Adds the line of a fact, and its end.
fn push_fact<W: Write>(sink: &mut Sink<'_, W>, task: &FlatTask, start: &[u8], fact: Fact)
    ensures { Pushes W.contents sink.old sink.new
        (line_with start.now (words_of task.now fact) ++ 10 ∷ []) }
{
    let var = Word::Number(u64::from(fact.var));
    let value = Word::Number(u64::from(fact.value));
    let name = value_name(task, fact);
    push_words(sink, start, &[var, value, Word::Name(name)])
}

/// Adds the line of what a part of the task does with a fact, and its end.
fn push_part<W: Write>(sink: &mut Sink<'_, W>, task: &FlatTask, start: &[u8], part: Part)
    ensures { Pushes W.contents sink.old sink.new
        (line_with start.now (part_words task.now part) ++ 10 ∷ []) }
{
    let (number, verb, fact) = deed(task, part);
    let var = Word::Number(u64::from(fact.var));
    let value = Word::Number(u64::from(fact.value));
    let name = Word::Name(value_name(task, fact));
    let words = [Word::Number(number), Word::Text(verb), var, value, name];
    push_words(sink, start, &words)
}

/// Returns the number of the part, the verb, and the fact.
fn deed(task: &FlatTask, part: Part) -> (u64, &'static [u8], Fact)
    ensures { verb_words task.now result.0 result.1.now result.2 ≡ part_words task.now part }
{
    match part {
        Part::Derives(rule) => (u64::from(rule), b"derives", given_by(task, rule)),
        Part::Sets(operator, effect) => {
            (u64::from(effect), b"sets", set_by(task, operator, effect))
        }
        Part::Requires(number, fact) => (u64::from(number), b"requires", fact),
    }
}
