// A task that is read once, for many plans.
ghost use Rattle.std.specs.Prelude.{◌≡◌, [], Some, None, IfSome};
ghost use Rattle.sas_answers.specs.Answers.{layers_verdict};
ghost use Rattle.sas_requests.specs.Output.{Out};
ghost use Rattle.sas_c.specs.Telling.{Returns};
ghost use Rattle.sas_c.specs.Holding.{HoldsTask};

use crate::numbers::{OUT_OF_MEMORY, YES};
use crate::sas_task::{HeldTask, SasTask};
use crate::telling::{tell, tell_ended};
use sas_answers::Status;
use sas_flat::FlatTask;
use sas_lines::Watched;
use sas_meaning::Layered;
use sas_requests::{Detail, ReadTask, Request, load, read_layered};
use std::alloc::Global;

/// Reads a task, and holds it if it is layered, in place of what was held before. Answers as `sas_check` does. Where the number
/// isn't `YES`, no task is held then.
#[unsafe(no_mangle)]
pub extern "C" fn sas_task_read(
    alloc: Global,
    task: &mut SasTask,
    bytes: &[u8],
    room: &mut [u8],
    size: &mut usize,
) -> u32
    ensures answers { Returns (Out Request.Check bytes.now []) room.old room.new size.new result }
    ensures held { result ≡ 0 → HoldsTask bytes.now task.new.pointer.task }
    ensures none { (result ≡ 0 → ⊥) → task.new.pointer.task ≡ None }
{
    sas_task_free(alloc, task);
    let mut device = Watched::new(bytes);
    let mut text = Watched::new(Vec::new(alloc));
    match read_layered(alloc, Detail::PLAIN, &mut device, &mut text) {
        ReadTask::Layered(layered) => hold(alloc, task, layered, room, size),
        ReadTask::Ended(ended) => tell_ended(ended, text, room, size),
    }
}

/// Drops the task that is held, if there is one.
#[unsafe(no_mangle)]
pub extern "C" fn sas_task_free(alloc: Global, task: &mut SasTask)
    ensures none { task.new.pointer.task ≡ None }
{
    drop(task.take(alloc));
}

/// Holds the task, and writes that it is layered. All memory is allocated before anything is written.
fn hold(
    alloc: Global,
    task: &mut SasTask,
    layered: Layered<FlatTask>,
    room: &mut [u8],
    size: &mut usize,
) -> u32
    requires { task.old.pointer.task ≡ None }
    ensures answers { Returns (λ output. output ≡ layers_verdict None)
        room.old room.new size.new result }
    ensures held { result ≡ 0 → task.new.pointer.task ≡ Some layered }
    ensures none { (result ≡ 0 → ⊥) → task.new.pointer.task ≡ None }
{
    let Ok(loaded) = load(alloc, layered) else {
        return OUT_OF_MEMORY;
    };
    match in_box(alloc, loaded) {
        Some(loaded) => tell_held(task, loaded, room, size),
        None => OUT_OF_MEMORY,
    }
}

/// Writes that the task is layered, and holds it if there is room for that.
fn tell_held(task: &mut SasTask, loaded: Box<HeldTask>, room: &mut [u8], size: &mut usize) -> u32
    requires { task.old.pointer.task ≡ None }
    ensures answers { Returns (λ output. output ≡ layers_verdict None)
        room.old room.new size.new result }
    ensures held { result ≡ 0 → task.new.pointer.task ≡ Some loaded.value }
    ensures none { (result ≡ 0 → ⊥) → task.new.pointer.task ≡ None }
{
    let number = tell(b"task layered\n", Status::Yes, room, size);
    if number == YES {
        task.put(loaded);
    } else {
        drop(loaded);
    }
    number
}

/// Puts the value into a box. This is generic, since `Box::new` of a type of as many parts as a loaded task has takes the prover too long.
fn in_box<T: Drop>(alloc: Global, value: T) -> Option<Box<T>>
    ensures { IfSome result (λ b. b.value ≡ value) }
{
    match Box::new(alloc, value) {
        Ok(value) => Some(value),
        Err(_) => None,
    }
}
