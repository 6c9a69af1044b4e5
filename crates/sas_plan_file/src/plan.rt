// Reads plan files from a device.
ghost use Rattle.std.specs.Prelude.{◌≡◌, ◌≢◌, false, Ok, Err, IfOk, IfErr};
ghost use Rattle.sas_reader.specs.Devices.{ReadsAll, ValueOf, TextOf};
ghost use Rattle.sas_reader.specs.Format.{ReadsAs};
ghost use Rattle.sas_reader.specs.Limit.{most_bytes};
ghost use Rattle.sas_reader.specs.About.{ConcernsText};
ghost use Rattle.sas_plan_file.specs.PlanFormat.{plan_format};
ghost use Rattle.sas_plan_file.specs.PlanRefusal.{ReadsPlan, ExplainsPlan};

use crate::plan_machine::PlanMachine;
use crate::plan_refusal::PlanRefusal;
use crate::plan_text::PlanText;
use sas_core::Plan;
use sas_flat::FlatPlan;
use sas_lines::Watched;
use sas_reader::{Fault, Kind, LIMIT, Reader, read_all, read_all_large};
use std::alloc::Global;
use std::io::Read;

/// Reads a plan from a device, to its end or to the first fault, in pieces of at most 4,096 bytes. A failed read is reported as
/// `Kind::Read`, and out of memory as `Kind::Memory`. The device must not have failed before.
///
/// The clauses are about the bytes that the device reports (`remaining`). A reader over memory reports them. A file or standard input
/// doesn't. For these, the clauses state only that there are such bytes.
pub fn read_plan<R: Read>(alloc: Global, reader: &mut Watched<R>) -> Result<Plan, Fault>
    requires { reader.old.failed ≡ false }
    ensures { ReadsAll R.remaining plan_format (ValueOf plan_format) reader.old reader.new result }
{
    match read_all(alloc, PlanMachine::new(alloc), LIMIT, reader) {
        Ok(machine) => Ok(machine.into_plan()),
        Err(refused) => Err(refused.into_fault()),
    }
}

/// Reads a plan from a device like `read_plan`, but in pieces of at most 65,536 bytes, and stores all names in one block of memory. An
/// error has the fault and the first bytes of the text there: of the wrong line, of what follows a whole plan, or of an unfinished last
/// line.
pub fn read_flat_plan<R: Read>(
    alloc: Global,
    reader: &mut Watched<R>,
) -> Result<FlatPlan, PlanRefusal>
    requires { reader.old.failed ≡ false }
    ensures { ReadsPlan R.remaining (ValueOf plan_format) reader.old reader.new result }
{
    match read_all_large(alloc, PlanMachine::new_flat(alloc), LIMIT, reader) {
        Ok(machine) => Ok(machine.into_flat_plan()),
        Err(refused) => Err(PlanRefusal::of(refused)),
    }
}

/// Reads a plan from bytes in memory, like `read_flat_plan` from a device. It takes no memory for pieces.
pub fn flat_plan_of(alloc: Global, bytes: &[u8]) -> Result<FlatPlan, PlanRefusal>
    ensures read { IfOk result (λ plan. ReadsAs plan_format most_bytes bytes.now (Ok plan)) }
    ensures fault { IfErr result (λ r. r.fault.kind ≢ Kind.Memory
        → ReadsAs plan_format most_bytes bytes.now (Err r.fault)) }
    ensures explained { IfErr result (λ r. ConcernsText r.fault.kind → ExplainsPlan bytes.now r) }
{
    let mut reader = Reader::new(alloc, PlanMachine::new_flat(alloc), LIMIT);
    // The reader keeps a fault, and returns it at the end.
    let _ = reader.feed(bytes);
    match reader.finish() {
        Ok(machine) => Ok(machine.into_flat_plan()),
        Err(refused) => Err(PlanRefusal::of(refused)),
    }
}

/// Reads a plan from a device like `read_flat_plan`, but returns only its text: its lines, each ended by LF. The errors are those of
/// `read_flat_plan`.
pub fn read_plan_text<R: Read>(
    alloc: Global,
    reader: &mut Watched<R>,
) -> Result<Vec<u8>, PlanRefusal>
    requires { reader.old.failed ≡ false }
    ensures { ReadsPlan R.remaining (λ b t. TextOf plan_format b t.items)
        reader.old reader.new result }
{
    match read_all_large(alloc, PlanText::new(alloc), LIMIT, reader) {
        Ok(machine) => Ok(machine.into_text()),
        Err(refused) => Err(PlanRefusal::of(refused)),
    }
}
