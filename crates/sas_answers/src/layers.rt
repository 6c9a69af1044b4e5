// Whether a task is layered, as an answer.
ghost use Rattle.std.specs.Prelude.{◌≡◌, Some, None, IfOk, option_map};
ghost use Rattle.sas_answers.specs.Answers.{layers_refusal, layers_verdict};
ghost use Rattle.sas_answers.specs.Ending.{output_of};
ghost use Rattle.sas_answers.specs.LayerWords.{layer_words, layers_line, words_at_part};

use crate::{Answer, Status};
use sas_lines::{push_line, push_number};
use sas_meaning::LayerFault;
use std::alloc::{AllocError, Global};

/// Returns the answer about a task that is layered.
pub fn accept_layers(alloc: Global) -> Result<Answer, AllocError>
    ensures { IfOk result (λ a. layers_verdict None ≡ Some (output_of a)) }
{
    Ok(Answer {
        text: Vec::from_slice(alloc, b"task layered\n")?,
        status: Status::Yes,
    })
}

/// Returns the refusal of a task for a fault of its layers. For `Memory` it returns an `Err`.
pub fn refuse_layers(alloc: Global, fault: LayerFault) -> Result<Answer, AllocError>
    ensures { IfOk result (λ a. layers_refusal fault ≡ Some (output_of a)) }
{
    Ok(Answer {
        text: layers_text(alloc, fault)?,
        status: Status::No,
    })
}

/// Returns the line that refuses a task for a fault of its layers.
fn layers_text(alloc: Global, fault: LayerFault) -> Result<Vec<u8>, AllocError>
    ensures { IfOk result (λ t. option_map layers_line (layer_words fault) ≡ Some t.items) }
{
    match fault {
        LayerFault::EffectOnDerived { operator, .. } => {
            part_text(alloc, "operator", operator, "effect on derived variable")
        }
        LayerFault::RuleOnBasic { rule } => {
            part_text(alloc, "rule", rule, "not on a derived variable")
        }
        LayerFault::OldValue { rule } => part_text(alloc, "rule", rule, "old value"),
        LayerFault::TwoValues { rule } => part_text(alloc, "rule", rule, "two values"),
        LayerFault::LayerOrder { rule, .. } => part_text(alloc, "rule", rule, "layer order"),
        LayerFault::Memory => Err(AllocError),
    }
}

/// Returns the line that refuses a task for a fault of this part of it.
fn part_text(alloc: Global, part: &str, place: u32, what: &str) -> Result<Vec<u8>, AllocError>
    ensures { IfOk result (λ t. t.items ≡ layers_line (words_at_part part.now place what.now)) }
{
    let mut text = Vec::from_slice(alloc, b"task refused: ")?;
    text.extend_from_slice(part.as_bytes())?;
    text.push(b' ')?;
    push_number(&mut text, u128::from(place))?;
    text.extend_from_slice(b": ")?;
    push_line(&mut text, what.as_bytes())?;
    Ok(text)
}
