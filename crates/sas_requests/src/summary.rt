// The summary of a task, written as it is made: it may be far longer than the task.
ghost use Rattle.std.specs.Prelude.{◌≡◌, [], ◌∷◌, ◌++◌, false, Some, IfOk, OnOk};
ghost use Rattle.std.specs.Option.{unwrap_or};
ghost use Rattle.sas_core.specs.Variables.{value_name};
ghost use Rattle.sas_lines.specs.Lines.{text};
ghost use Rattle.sas_answers.specs.Ending.{EndsCounting, Writes};
ghost use Rattle.sas_answers.specs.Facts.{fact_line, initial_lines};
ghost use Rattle.sas_answers.specs.Sink.{Pushes};
ghost use Rattle.sas_requests.specs.Summary as spec;
ghost use Rattle.sas_requests.specs.Summary.{summary_lines};

use sas_answers::{Pieces, Sink, Status, ToolFault, Word, Words};
use sas_flat::{Outline, Variables};
use sas_lines::{Watched, push_number};
use std::alloc::{AllocError, Global};
use std::io::Write;

/// Writes the summary of a task with this outline, in pieces. Returns `Write` if a write fails, or `Memory` if out of memory. In the
/// latter case nothing was written. Not to be called after a failure.
pub fn write_summary<W: Write>(
    alloc: Global,
    outline: &Outline,
    out: &mut Watched<W>,
) -> Result<Status, ToolFault>
    requires { out.old.failed ≡ false }
    ensures { Writes W.contents (EndsCounting (λ output. output
        ≡ Some (record { text = text (summary_lines outline.now); status = Status.Yes })))
        out.old out.new result }
{
    // What takes memory comes first.
    let numbers = numbers_text(alloc, outline)?;
    let mut pieces = Pieces::new(alloc)?;
    let mut sink = Sink::new(Status::Yes, &mut pieces, out);
    sink.push(numbers.as_slice());
    push_state(&mut sink, outline);
    push_goal(&mut sink, outline);
    sink.finish()
}

/// Returns the lines with the task's numbers, each ended by LF.
fn numbers_text(alloc: Global, outline: &Outline) -> Result<Vec<u8>, AllocError>
    ensures { IfOk result (λ t. t.items ≡ text (spec.number_lines outline.now)) }
{
    let mut text = Vec::new(alloc);
    push_number_line(&mut text, b"metric", u128::from(outline.metric))?;
    push_number_line(&mut text, b"variables", outline.variables.len() as u128)?;
    push_number_line(
        &mut text,
        b"derived",
        derived_count(&outline.variables) as u128,
    )?;
    push_number_line(&mut text, b"groups", u128::from(outline.groups))?;
    push_number_line(&mut text, b"operators", u128::from(outline.operators))?;
    push_number_line(&mut text, b"rules", u128::from(outline.rules))?;
    Ok(text)
}

/// Appends the line with a word and a number.
fn push_number_line(out: &mut Vec<u8>, word: &[u8], n: u128) -> Result<(), AllocError>
    ensures { OnOk result (out.new.items ≡ out.old.items
        ++ (spec.number_line word.now n ++ 10 ∷ [])) }
{
    out.extend_from_slice(word)?;
    out.push(b' ')?;
    push_number(out, n)?;
    out.push(b'\n')?;
    Ok(())
}

/// Returns how many of the variables are derived.
fn derived_count(variables: &Variables) -> usize
    ensures { result ≡ spec.derived_count variables.now }
{
    let mut count = 0;
    for var in 0..variables.len() {
        if variables.layer(var).is_some() {
            count += 1;
        }
    }
    count
}

/// Adds a line for each variable: its value in the state section.
fn push_state<W: Write>(sink: &mut Sink<'_, W>, outline: &Outline)
    ensures { Pushes W.contents sink.old sink.new
        (text (initial_lines outline.now.variables outline.now.init)) }
{
    for (var, value) in outline.init.as_slice().iter().enumerate() {
        push_summary_fact(sink, b"initial", outline, var, *value);
    }
}

/// Adds a line for each fact of the goal.
fn push_goal<W: Write>(sink: &mut Sink<'_, W>, outline: &Outline)
    ensures { Pushes W.contents sink.old sink.new
        (text (spec.goal_fact_lines outline.now.variables outline.now.goal)) }
{
    for fact in outline.goal.as_slice() {
        push_summary_fact(sink, b"goal", outline, fact.var as usize, fact.value);
    }
}

/// Adds the line of a word and a fact, with the name of the fact's value.
fn push_summary_fact<W: Write>(
    sink: &mut Sink<'_, W>,
    word: &[u8],
    outline: &Outline,
    var: usize,
    value: u32,
)
    ensures { Pushes W.contents sink.old sink.new
        (fact_line word.now outline.now.variables var value ++ 10 ∷ []) }
{
    let rest = [
        Word::Number(var as u64),
        Word::Number(u64::from(value)),
        Word::Text(shown_value_name(&outline.variables, var, value)),
    ];
    sink.push_line(Words {
        first: word,
        rest: &rest,
    });
}

/// Returns the name of a variable's value; if there is no such value, no bytes.
fn shown_value_name(variables: &Variables, var: usize, value: u32) -> &[u8]
    ensures { result.now ≡ unwrap_or (value_name variables.now var value) [] }
{
    match variables.value_name(var, value as usize) {
        Some(name) => name,
        None => b"",
    }
}
