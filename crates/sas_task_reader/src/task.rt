// Reads task files from a device.
ghost use Rattle.std.specs.Prelude.{◌≡◌, false};
ghost use Rattle.sas_reader.specs.Devices.{ReadsAll, ValueOf, TextOf};
ghost use Rattle.sas_task_file.specs.TaskFormat.{task_format};
ghost use Rattle.sas_task_reader.specs.TaskOutline.{OutlineOf};
ghost use Rattle.sas_task_reader.specs.TaskRefusal.{ReadsTask};

use crate::TaskMachine;
use crate::flat_so_far::FlatSoFar;
use crate::task_outline::TaskOutline;
use crate::task_refusal::TaskRefusal;
use crate::task_text::TaskText;
use sas_core::Task;
use sas_flat::{FlatTask, Outline};
use sas_lines::Watched;
use sas_reader::{Fault, LIMIT, read_all, read_all_large};
use sas_task_file::SoFar;
use std::alloc::Global;
use std::io::Read;

/// Reads a task from a device, to its end or to the first fault, in pieces of at most 4,096 bytes. A failed read is reported as
/// `Kind::Read`, and out of memory as `Kind::Memory`. The device must not have failed before.
///
/// The clauses are about the bytes that the device reports (`remaining`). A reader over memory reports them. A file or standard input
/// doesn't. For these, the clauses state only that there are such bytes.
pub fn read_task<R: Read>(alloc: Global, reader: &mut Watched<R>) -> Result<Task, Fault>
    requires { reader.old.failed ≡ false }
    ensures { ReadsAll R.remaining task_format (ValueOf task_format) reader.old reader.new result }
{
    let start = TaskMachine::new(alloc, SoFar::new(alloc));
    match read_all(alloc, start, LIMIT, reader) {
        Ok(machine) => Ok(Task::of_parts(machine.into_kept().into_parts())),
        Err(refused) => Err(refused.into_fault()),
    }
}

/// Reads a task from a device like `read_task`, but in pieces of at most 65,536 bytes, and stores it in a few blocks of memory. An error
/// has the fault, its location, what was expected there, the first wrong word of the line, and the first bytes of the text there: of the
/// wrong line, of what follows a whole task, or of an unfinished last line.
pub fn read_flat_task<R: Read>(
    alloc: Global,
    reader: &mut Watched<R>,
) -> Result<FlatTask, TaskRefusal>
    requires { reader.old.failed ≡ false }
    ensures { ReadsTask R.remaining (ValueOf task_format) reader.old reader.new result }
{
    let flat = TaskMachine::new(alloc, FlatSoFar::new(alloc));
    match read_all_large(alloc, flat, LIMIT, reader) {
        Ok(machine) => Ok(machine.into_kept().into_task()),
        Err(refused) => Err(TaskRefusal::of(refused)),
    }
}

/// Reads a task from a device like `read_flat_task`, but returns only its outline. It stores no group, operator or rule. The errors are
/// those of `read_flat_task`.
pub fn read_outline<R: Read>(alloc: Global, reader: &mut Watched<R>) -> Result<Outline, TaskRefusal>
    requires { reader.old.failed ≡ false }
    ensures { ReadsTask R.remaining OutlineOf reader.old reader.new result }
{
    let outline = TaskMachine::new(alloc, TaskOutline::new(alloc));
    match read_all_large(alloc, outline, LIMIT, reader) {
        Ok(machine) => Ok(machine.into_kept().into_outline()),
        Err(refused) => Err(TaskRefusal::of(refused)),
    }
}

/// Reads a task from a device like `read_flat_task`, but returns only its text: its lines, each ended by LF. The errors are those of
/// `read_flat_task`.
pub fn read_task_text<R: Read>(
    alloc: Global,
    reader: &mut Watched<R>,
) -> Result<Vec<u8>, TaskRefusal>
    requires { reader.old.failed ≡ false }
    ensures { ReadsTask R.remaining (λ b t. TextOf task_format b t.items)
        reader.old reader.new result }
{
    let text = TaskMachine::new(alloc, TaskText::new(alloc));
    match read_all_large(alloc, text, LIMIT, reader) {
        Ok(machine) => Ok(machine.into_kept().into_text()),
        Err(refused) => Err(TaskRefusal::of(refused)),
    }
}
