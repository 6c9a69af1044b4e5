// How an answer goes into the caller's memory.
ghost use Rattle.std.specs.Prelude.{◌≡◌, ◌<◌, length, take, drop, IfErr, IfOk, IsTrue, IsFalse, Some};
ghost use Rattle.sas_answers.specs.Ending.{output_of};
ghost use Rattle.sas_c.specs.Telling.{Returns, ReturnsState, number_of_fault};
ghost use Rattle.sas_c.specs.Written.{IsWritten};

use crate::numbers::{NO, ROOM_TOO_SHORT, YES, fault_number, status_number};
use sas_answers::{Answer, Status, ToolFault};
use sas_lines::Watched;

/// Writes an answer with this text and this status. Returns the status as a number, or that the text is longer than the room.
pub fn tell(text: &[u8], status: Status, room: &mut [u8], size: &mut usize) -> u32
    ensures answers { Returns
        (λ output. output ≡ Some (record { text = text.now; status = status }))
        room.old room.new size.new result }
    ensures never { result ≡ 3 → ⊥ }
{
    if copy(text, room, size) {
        status_number(status)
    } else {
        ROOM_TOO_SHORT
    }
}

/// Writes an answer, and drops it.
pub fn return_answer(answer: Answer, room: &mut [u8], size: &mut usize) -> u32
    ensures answers { Returns (λ output. output ≡ Some (output_of answer))
        room.old room.new size.new result }
    ensures never { result ≡ 3 → ⊥ }
{
    let number = tell(answer.text.as_slice(), answer.status, room, size);
    drop(answer);
    number
}

/// Writes the answer of a run that wrote this text and ended so, or returns why there is none.
pub fn tell_ended(
    ended: Result<Status, ToolFault>,
    text: Watched<Vec<u8>>,
    room: &mut [u8],
    size: &mut usize,
) -> u32
    ensures answers { Returns (IsWritten text.device.items ended)
        room.old room.new size.new result }
    ensures number { IfErr ended (λ why. result ≡ number_of_fault why) }
    ensures never { IfOk ended (λ _. result ≡ 3 → ⊥) }
{
    match ended {
        Ok(status) => tell(text.into_device().as_slice(), status, room, size),
        Err(fault) => fault_number(fault),
    }
}

/// Writes the values of a state. Returns `YES` or `NO`, or that there are more than the room has.
pub fn tell_values(values: &[u32], all: bool, room: &mut [u32], size: &mut usize) -> u32
    ensures { ReturnsState (λ found. found ≡ Some (values.now, all))
        room.old room.new size.new result }
{
    if !copy(values, room, size) {
        return ROOM_TOO_SHORT;
    }
    if all { YES } else { NO }
}

/// Copies the text to the front of the room, if it fits. `size` gets its length in any case. Nothing else in the room changes.
fn copy<T: Copy>(text: &[T], room: &mut [T], size: &mut usize) -> bool
    ensures size { size.new ≡ length text.now }
    ensures same { length room.new ≡ length room.old }
    ensures copied { IsTrue result → take (length text.now) room.new ≡ text.now }
    ensures behind { IsTrue result
        → drop (length text.now) room.new ≡ drop (length text.now) room.old }
    ensures longer { IsFalse result → length room.old < length text.now }
    ensures spared { IsFalse result → room.new ≡ room.old }
{
    *size = text.len();
    if text.len() > room.len() {
        return false;
    }
    room[..text.len()].copy_from_slice(text);
    true
}
