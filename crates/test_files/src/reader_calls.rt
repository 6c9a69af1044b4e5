// Calls of `sas_text` that read files from devices and in pieces.
ghost use Rattle.std.specs.Prelude.{◌≡◌, false};

use sas_core::{Plan, Task};
use sas_lines::Watched;
use sas_text::{
    Fault, Kind, PlanReader, PlanRefusal, TaskReader, TaskRefusal, encode_plan, encode_task,
    read_flat_plan, read_flat_task, read_outline, read_plan, read_plan_text, read_task,
    read_task_text,
};
use std::io::Read;
use test_words::{ScriptedReader, say, say_text};

/// Prints a fault.
fn say_fault(rt: &HostRuntime, fault: Fault) {
    let Fault { line, kind } = fault;
    if kind == Kind::Memory {
        return say(rt, "out of memory");
    }
    let _ = println!(rt; "line {line}: {kind:?}");
}

/// Prints that something was read, or the fault.
fn say_end<T: Drop>(rt: &HostRuntime, read: Result<T, Fault>) {
    match read {
        Ok(_value) => say(rt, "read"),
        Err(fault) => say_fault(rt, fault),
    }
}

/// Prints the text of a plan, or the fault.
fn say_plan(rt: &HostRuntime, read: Result<Plan, Fault>) {
    match read {
        Ok(plan) => say_text(rt, &encode_plan(rt.alloc(), &plan)),
        Err(fault) => say_fault(rt, fault),
    }
}

/// Prints the text of a task, or the fault.
fn say_task(rt: &HostRuntime, read: Result<Task, Fault>) {
    match read {
        Ok(task) => say_text(rt, &encode_task(rt.alloc(), &task)),
        Err(fault) => say_fault(rt, fault),
    }
}

/// Prints a text that was read, or the fault.
fn say_read(rt: &HostRuntime, read: Result<Vec<u8>, Fault>) {
    match read {
        Ok(_) => say_text(rt, &read),
        Err(fault) => say_fault(rt, fault),
    }
}

/// Returns the fault of a plan that is refused.
fn plan_fault(refusal: PlanRefusal) -> Fault {
    refusal.fault
}

/// Returns the fault of a task that is refused.
fn task_fault(refusal: TaskRefusal) -> Fault {
    refusal.fault
}

/// Reads a file in the way with this name, and prints the result.
fn read_device<D: Read>(rt: &HostRuntime, way: &str, device: &mut Watched<D>)
    requires { device.old.failed ≡ false }
{
    let alloc = rt.alloc();
    match way {
        "plan" => say_plan(rt, read_plan(alloc, device)),
        "plan-text" => say_read(rt, read_plan_text(alloc, device).map_err(plan_fault)),
        "flat-plan" => say_end(rt, read_flat_plan(alloc, device).map_err(plan_fault)),
        "task" => say_task(rt, read_task(alloc, device)),
        "task-text" => say_read(rt, read_task_text(alloc, device).map_err(task_fault)),
        "flat-task" => say_end(rt, read_flat_task(alloc, device).map_err(task_fault)),
        _ => say_end(rt, read_outline(alloc, device).map_err(task_fault)),
    }
}

/// Reads a file from a device that follows a text, and prints the result. Detects a call that is always out of memory, a result that
/// depends on the available memory, a larger buffer than documented, a read that is repeated after a failure, and another read after the
/// end.
pub fn read(rt: &HostRuntime, way: &str, text: &[u8]) {
    let most = if way == "plan" || way == "task" {
        4096
    } else {
        65_536
    };
    let mut device = Watched::new(ScriptedReader::new(text, most));
    read_device(rt, way, &mut device);
    if device.failed() {
        say(rt, "failed");
    }
}

/// Feeds pieces of a plan to a reader, and prints its result for each piece and at the end. `|` separates pieces. Detects a fault that is
/// reported too early or too late, or that isn't repeated.
pub fn feed_plan(rt: &HostRuntime, pieces: &[u8]) {
    let mut reader = PlanReader::new(rt.alloc());
    for piece in pieces.split(|&byte| byte == b'|') {
        say_end(rt, reader.feed(piece));
    }
    say_plan(rt, reader.finish());
}

/// Feeds pieces of a task to a reader, as `feed_plan` does.
pub fn feed_task(rt: &HostRuntime, pieces: &[u8]) {
    let mut reader = TaskReader::new(rt.alloc());
    for piece in pieces.split(|&byte| byte == b'|') {
        say_end(rt, reader.feed(piece));
    }
    say_task(rt, reader.finish());
}

/// Feeds a plan to a reader with a smaller limit than that of files, and prints the result. Detects a limit that is too small, and a
/// reader that ignores it.
pub fn feed_plan_within(rt: &HostRuntime, limit: u32, bytes: &[u8]) {
    let mut reader = PlanReader::within(rt.alloc(), u64::from(limit));
    // The reader keeps a fault, and returns it at the end.
    let _ = reader.feed(bytes);
    say_end(rt, reader.finish());
}

/// Feeds a task to a reader with a smaller limit, as `feed_plan_within` does.
pub fn feed_task_within(rt: &HostRuntime, limit: u32, bytes: &[u8]) {
    let mut reader = TaskReader::within(rt.alloc(), u64::from(limit));
    let _ = reader.feed(bytes);
    say_end(rt, reader.finish());
}
