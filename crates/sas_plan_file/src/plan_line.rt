// Parses one line of a plan file.
ghost use Rattle.std.specs.Prelude.{◌≡◌, ◌<◌, ◌++◌, ℕ, codes, length, IfSome, IfNone};
ghost use Rattle.std.specs.Fmt.{decimal};
ghost use Rattle.sas_core.specs.Numbers.{IsPlanCost};
ghost use Rattle.sas_plan_file.specs.PlanLine.{Costs, JudgesPlanLine, StepStandsFirst};

use sas_core::CostKind;
use sas_lines::cost;
use sas_reader::{Kind, LineEnd, before, behind, closed_name, plain_end};

/// The content of a line of a plan file: the name of a step, or the cost.
#[derive(Clone, Copy)]
pub enum PlanLine<'a> {
    Step(&'a [u8]),
    Cost(u64, CostKind),
}

/// Returns the cost before the words, or `None` if there is no such cost.
fn read_cost(rest: &[u8], words: &[u8]) -> Option<u64>
    ensures found { IfSome result (λ n. IsPlanCost n × (rest.now ≡ decimal n ++ words.now)) }
    ensures none { IfNone result ((n : ℕ) → IsPlanCost n → rest.now ≡ decimal n ++ words.now → ⊥) }
{
    match before(rest, words) {
        Some(digits) => cost(digits),
        None => None,
    }
}

/// Returns the cost and its kind, or `None` if the line has another form.
fn cost_on_line(rest: &[u8]) -> Option<(u64, CostKind)>
    ensures found { IfSome result (λ c. Costs rest.now c.0 c.1) }
    ensures none { IfNone result ((n : ℕ) (kind : CostKind) → Costs rest.now n kind → ⊥) }
{
    if let Some(n) = read_cost(rest, b" (unit cost)") {
        return Some((n, CostKind::Unit));
    }
    match read_cost(rest, b" (general cost)") {
        Some(n) => Some((n, CostKind::General)),
        None => None,
    }
}

/// Parses a line as a step or the cost. Returns the kind of its fault if it is neither.
pub fn plan_line(line: &[u8]) -> Result<PlanLine<'_>, Kind>
    ensures { JudgesPlanLine line.now result }
{
    if let Some(rest) = behind(line, b"(") {
        return match closed_name(rest) {
            Some(name) => Ok(PlanLine::Step(name)),
            None => Err(Kind::Name),
        };
    }
    match behind(line, b"; cost = ") {
        None => Err(Kind::Keyword),
        Some(rest) => match cost_on_line(rest) {
            Some((n, kind)) => Ok(PlanLine::Cost(n, kind)),
            None => Err(Kind::Shape),
        },
    }
}

/// Returns the bytes between the parentheses with which the line begins and ends. Returns `None` if it has no such parentheses or no bytes
/// between them.
fn in_parentheses(line: &[u8]) -> Option<&[u8]>
    ensures { IfSome result
        (λ name. 0 < length name.now × (line.now ≡ codes "(" ++ (name.now ++ codes ")"))) }
{
    match line {
        [b'(', name @ .., b')'] if !name.is_empty() => Some(name),
        _ => None,
    }
}

/// Returns the name of the step on the first line of the bytes, and the bytes after the line, if its end is at the first byte that is at
/// most CR. Otherwise returns `None`, and the line has to be read by `plan_line`.
#[inline(always)]
pub fn step_ahead<E: LineEnd>(bytes: &[u8]) -> Option<(&[u8], &[u8])>
    ensures { IfSome result (λ a. StepStandsFirst bytes.now a.0.now a.1.now) }
{
    let end = plain_end(bytes)?;
    let name = in_parentheses(&bytes[..end])?;
    let rest = E::behind(bytes, end)?;
    Some((name, rest))
}
