// Lines with the location of a line, and with what is expected there.
ghost use Rattle.std.specs.Prelude.{◌≡◌, ◌++◌, decimal, codes, OnOk};
ghost use Rattle.sas_requests.specs.FileLine as line;
ghost use Rattle.sas_requests.specs.FileLine.{due_words, ended_line, file_text, line_if, location_words, plan_due_words, what_words};

use sas_lines::{push_line, push_number};
use sas_reader::Kind;
use sas_task_file::{Due, ListCount, Location, What, WrongWord};
use std::alloc::AllocError;

/// Appends the line with a location.
pub(crate) fn push_location(out: &mut Vec<u8>, at: Location) -> Result<(), AllocError>
    ensures { OnOk result (out.new.items ≡ out.old.items ++ ended_line (line.At at)) }
{
    out.extend_from_slice(b"  at ")?;
    push_location_words(out, at)?;
    out.push(b'\n')?;
    Ok(())
}

/// Appends the words for a location.
fn push_location_words(out: &mut Vec<u8>, at: Location) -> Result<(), AllocError>
    ensures { OnOk result (out.new.items ≡ out.old.items ++ location_words at) }
{
    match at {
        Location::Version => out.extend_from_slice(b"version"),
        Location::Metric => out.extend_from_slice(b"metric"),
        Location::Variables => out.extend_from_slice(b"variables"),
        Location::Variable(n) => push_counted(out, b"variable ", n),
        Location::Groups => out.extend_from_slice(b"groups"),
        Location::Group(n) => push_counted(out, b"group ", n),
        Location::State => out.extend_from_slice(b"state"),
        Location::Goal => out.extend_from_slice(b"goal"),
        Location::Operators => out.extend_from_slice(b"operators"),
        Location::Operator(n) => push_counted(out, b"operator ", n),
        Location::Rules => out.extend_from_slice(b"rules"),
        Location::Rule(n) => push_counted(out, b"rule ", n),
        Location::End => out.extend_from_slice(b"the end"),
    }
}

/// Appends the bytes and the number.
fn push_counted(out: &mut Vec<u8>, bytes: &[u8], n: u32) -> Result<(), AllocError>
    ensures { OnOk result (out.new.items ≡ out.old.items ++ (bytes.now ++ decimal n)) }
{
    out.extend_from_slice(bytes)?;
    push_number(out, u128::from(n))
}

/// Appends the line with what is expected in a task.
pub(crate) fn push_due(out: &mut Vec<u8>, due: Due) -> Result<(), AllocError>
    ensures { OnOk result (out.new.items ≡ out.old.items ++ ended_line (line.Expected due)) }
{
    out.extend_from_slice(b"  expected ")?;
    push_due_words(out, due)?;
    out.push(b'\n')?;
    Ok(())
}

/// Appends the words for what is expected in a task.
fn push_due_words(out: &mut Vec<u8>, due: Due) -> Result<(), AllocError>
    ensures { OnOk result (out.new.items ≡ out.old.items ++ due_words due) }
{
    match due {
        Due::Word(word) => out.extend_from_slice(word.bytes()),
        Due::Name(what) => push_name(out, what),
        Due::Number { what, least, most } => push_range(out, what, least, most),
        Due::Layer => out.extend_from_slice(b"number -1 to 2147483647: axiom layer"),
        Due::Fact => out.extend_from_slice(b"fact: VAR VALUE"),
        Due::Head => out.extend_from_slice(b"head: VAR OLD NEW"),
        Due::Effect => {
            out.extend_from_slice(b"effect: COUNT, COUNT times VAR VALUE, VAR OLD NEW")
        }
        Due::Nothing => out.extend_from_slice(b"end of file"),
    }
}

/// Appends the words for a name.
fn push_name(out: &mut Vec<u8>, what: What) -> Result<(), AllocError>
    ensures { OnOk result (out.new.items ≡ out.old.items ++ (codes "a name: " ++ what_words what)) }
{
    out.extend_from_slice(b"a name: ")?;
    push_what(out, what)
}

/// Appends the words for a number from `least` to `most`.
fn push_range(out: &mut Vec<u8>, what: What, least: u32, most: u32) -> Result<(), AllocError>
    ensures { OnOk result (out.new.items ≡ out.old.items
        ++ codes "number " ++ decimal least ++ codes " to " ++ decimal most ++ codes ": "
        ++ what_words what) }
{
    push_counted(out, b"number ", least)?;
    push_counted(out, b" to ", most)?;
    out.extend_from_slice(b": ")?;
    push_what(out, what)
}

/// Appends the words for what a name or a number is.
fn push_what(out: &mut Vec<u8>, what: What) -> Result<(), AllocError>
    ensures { OnOk result (out.new.items ≡ out.old.items ++ what_words what) }
{
    match what {
        What::Variable => out.extend_from_slice(b"variable"),
        What::Value => out.extend_from_slice(b"value"),
        What::Operator => out.extend_from_slice(b"operator"),
        What::Version => out.extend_from_slice(b"version"),
        What::Metric => out.extend_from_slice(b"metric"),
        What::Variables => out.extend_from_slice(b"number of variables"),
        What::Groups => out.extend_from_slice(b"number of groups"),
        What::Operators => out.extend_from_slice(b"number of operators"),
        What::Rules => out.extend_from_slice(b"number of rules"),
        What::Range => out.extend_from_slice(b"range"),
        What::Facts => out.extend_from_slice(b"number of facts"),
        What::ValueOf(variable) => push_value_of(out, variable),
        What::Prevail => out.extend_from_slice(b"number of prevail conditions"),
        What::Effects => out.extend_from_slice(b"number of effects"),
        What::Cost => out.extend_from_slice(b"cost"),
        What::Conditions => out.extend_from_slice(b"number of conditions"),
    }
}

/// Appends the words for a value in the initial state.
fn push_value_of(out: &mut Vec<u8>, variable: usize) -> Result<(), AllocError>
    ensures { OnOk result
        (out.new.items ≡ out.old.items ++ (codes "value of variable " ++ decimal variable)) }
{
    out.extend_from_slice(b"value of variable ")?;
    push_number(out, variable as u128)
}

/// Appends the line with the wrong number, and which numbers are allowed, if there is one.
pub(crate) fn push_wrong_word(out: &mut Vec<u8>, wrong: Option<WrongWord>) -> Result<(), AllocError>
    ensures { OnOk result
        (out.new.items ≡ out.old.items ++ file_text (line_if line.NumberMustBe wrong)) }
{
    let Some(wrong) = wrong else {
        return Ok(());
    };
    out.extend_from_slice(b"  number ")?;
    push_number(out, u128::from(wrong.word))?;
    let least: &[u8] = if wrong.may_be_none { b"-1" } else { b"0" };
    out.extend_from_slice(b" must be ")?;
    out.extend_from_slice(least)?;
    out.extend_from_slice(b" to ")?;
    push_number(out, u128::from(wrong.most))?;
    out.push(b'\n')?;
    Ok(())
}

/// Appends the line with the number of a list's items, if there is one.
pub(crate) fn push_count(out: &mut Vec<u8>, count: Option<ListCount>) -> Result<(), AllocError>
    ensures { OnOk result
        (out.new.items ≡ out.old.items ++ file_text (line_if line.Counted count)) }
{
    let Some(count) = count else {
        return Ok(());
    };
    out.extend_from_slice(b"  line ")?;
    push_number(out, u128::from(count.line))?;
    out.extend_from_slice(b" counts ")?;
    push_number(out, u128::from(count.number))?;
    out.push(b'\n')?;
    Ok(())
}

/// Appends the line with what is expected in a plan at a fault of this kind.
pub(crate) fn push_plan_due(out: &mut Vec<u8>, kind: Kind) -> Result<(), AllocError>
    ensures { OnOk result (out.new.items ≡ out.old.items ++ ended_line (line.ExpectedInPlan kind)) }
{
    out.extend_from_slice(b"  expected ")?;
    push_line(out, plan_due(kind))
}

/// Returns the words for what is expected in a plan at a fault of this kind.
fn plan_due(kind: Kind) -> &'static [u8]
    ensures { result.now ≡ plan_due_words kind }
{
    match kind {
        Kind::Name => b"(NAME)",
        Kind::Shape => b"; cost = N (unit cost) or ; cost = N (general cost)",
        Kind::Trailing => b"end of file",
        _ => b"(NAME) or ; cost = N (unit cost) or ; cost = N (general cost)",
    }
}
