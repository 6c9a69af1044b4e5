// How a question about bytes in memory is answered.
ghost use Rattle.sas_requests.specs.OutBy.{OutBy};
ghost use Rattle.sas_c.specs.Telling.{Returns};

use crate::telling::tell_ended;
use sas_lines::Watched;
use sas_requests::{Question, answer};
use std::alloc::Global;

/// The bytes of a task and of a plan. An input that isn't read has none.
#[derive(Clone, Copy)]
pub struct Inputs<'b> {
    pub task: &'b [u8],
    pub plan: &'b [u8],
}

/// Writes the answer to the question about these bytes.
pub fn answer_call(
    alloc: Global,
    question: Question,
    inputs: Inputs<'_>,
    room: &mut [u8],
    size: &mut usize,
) -> u32
    ensures { Returns (OutBy question.detail question.request
        inputs.entry.task.now inputs.entry.plan.now)
        room.old room.new size.new result }
{
    let mut task = Watched::new(inputs.task);
    let mut plan = Watched::new(inputs.plan);
    let mut text = Watched::new(Vec::new(alloc));
    let ended = answer(alloc, question, &mut task, &mut plan, &mut text);
    tell_ended(ended, text, room, size)
}
