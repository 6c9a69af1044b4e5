// Calls of `run` and `answer` over devices.
use crate::{LONGEST_READ, say_answer};
use sas_lines::Watched;
use sas_requests::{Detail, Question, Request, ToolFault, answer, run};
use test_words::{ScriptedReader, cut, narrow_of};

/// Returns the request with this name.
fn request_of(name: &str) -> Request {
    match name {
        "print" => Request::Print,
        "show" => Request::Show,
        "check" => Request::Check,
        "plan" | "trace" => Request::Plan,
        "mutex" => Request::Mutex,
        _ => Request::Steps,
    }
}

/// Returns the question with this name: `trace` or a request, with `-why` after it for reasons.
fn question_of(name: &str) -> Question {
    let (name, reasons) = match name.strip_suffix("-why") {
        Some(name) => (name, true),
        None => (name, false),
    };
    let trace = name == "trace";
    Question {
        request: request_of(name),
        detail: Detail { reasons, trace },
    }
}

/// Answers a question over readers that follow texts: `WRITER|PLAN|TASK`. Detects a call that is always out of memory, or that writes
/// before its answer is complete; a read that is repeated after it failed; and a read after the end, or into a larger buffer than
/// documented.
pub fn answer_question(rt: &HostRuntime, question: &str, bytes: &[u8]) -> Option<()> {
    let question = question_of(question);
    let (writer, inputs) = cut(bytes, b'|');
    let (plan, task) = cut(inputs, b'|');
    let mut plan = Watched::new(ScriptedReader::new(plan, LONGEST_READ));
    let mut task = Watched::new(ScriptedReader::new(task, LONGEST_READ));
    let mut out = Watched::new(narrow_of(rt.alloc(), writer)?);
    let alloc = rt.alloc();
    let answer = if question.detail == Detail::PLAIN {
        run(alloc, question.request, &mut task, &mut plan, &mut out)
    } else {
        answer(alloc, question, &mut task, &mut plan, &mut out)
    };
    say_answer(
        rt,
        &answer,
        &Err(ToolFault::Memory),
        out.into_device().kept(),
    );
    Some(())
}

/// Prints the messages of `ToolFault`. Detects words other than those that are promised.
pub fn say_messages(rt: &HostRuntime) {
    let faults = [
        ToolFault::Memory,
        ToolFault::Read,
        ToolFault::TooLong,
        ToolFault::Write { written: 7 },
    ];
    for fault in &faults {
        let _ = println!(rt; "{fault}");
    }
}
