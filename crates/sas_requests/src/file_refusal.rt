// Writes refusals of files.
ghost use Rattle.std.specs.Prelude.{◌≡◌, ◌↔◌, Some, IfOk, IfErr, IsErrOf};
ghost use Rattle.sas_answers.specs.Ending.{IsWrite, output_of};
ghost use Rattle.sas_requests.specs.Output.{refusal, refusal_line, word_of};

use sas_answers::{Answer, Status, ToolFault};
use sas_lines::{push_line, push_number};
use sas_reader::{Fault, Kind};
use std::alloc::{AllocError, Global};

/// Returns the refusal of the file called `name` for its fault: one line, with status `No`. Returns `Err` if the run ends without an
/// answer: `TooLong` and `Read` for a fault of this kind, or `Memory` if out of memory.
pub fn refuse_file(alloc: Global, name: &str, fault: Fault) -> Result<Answer, ToolFault>
    ensures ok { IfOk result (λ t. refusal name.now fault ≡ Some (output_of t)) }
    ensures long { IsErrOf result ToolFault.TooLong ↔ (fault.kind ≡ Kind.TooLong) }
    ensures read { IsErrOf result ToolFault.Read ↔ (fault.kind ≡ Kind.Read) }
    ensures writes { IfErr result (λ e. IsWrite e → ⊥) }
{
    let word = word(fault.kind)?;
    Ok(Answer {
        text: refusal_text(alloc, name, fault.line, word)?,
        status: Status::No,
    })
}

/// Returns the word for this kind of fault, or `Err` if the run ends without an answer.
fn word(kind: Kind) -> Result<&'static str, ToolFault>
    ensures ok { IfOk result (λ w. word_of kind ≡ Some w.now) }
    ensures memory { IsErrOf result ToolFault.Memory ↔ (kind ≡ Kind.Memory) }
    ensures long { IsErrOf result ToolFault.TooLong ↔ (kind ≡ Kind.TooLong) }
    ensures read { IsErrOf result ToolFault.Read ↔ (kind ≡ Kind.Read) }
    ensures writes { IfErr result (λ e. IsWrite e → ⊥) }
{
    match kind {
        Kind::Keyword => Ok("keyword"),
        Kind::Name => Ok("name"),
        Kind::Shape => Ok("shape"),
        Kind::Value => Ok("value"),
        Kind::End => Ok("end"),
        Kind::Trailing => Ok("trailing"),
        Kind::TooLong => Err(ToolFault::TooLong),
        Kind::Read => Err(ToolFault::Read),
        Kind::Memory => Err(ToolFault::Memory),
    }
}

/// Returns the line that refuses the file called `name`.
fn refusal_text(alloc: Global, name: &str, line: u64, word: &str) -> Result<Vec<u8>, AllocError>
    ensures { IfOk result (λ t. t.items ≡ refusal_line name.now line word.now) }
{
    let mut text = Vec::from_slice(alloc, name.as_bytes())?;
    text.extend_from_slice(b" refused: line ")?;
    push_number(&mut text, u128::from(line))?;
    text.extend_from_slice(b": ")?;
    push_line(&mut text, word.as_bytes())?;
    Ok(text)
}
