// Calls of `sas_tool`: what the words of a command line request, and how the program ends.
use sas_requests::{Question, Status, ToolFault};
use sas_tool::{Job, Source, WordsFault, command, ending};
use std::alloc::{AllocError, Global};
use test_words::{say, text_of};

/// Returns the words of a command line, the program's name first. `|` separates words.
fn words_in(alloc: Global, bytes: &[u8]) -> Result<Vec<String>, AllocError> {
    let mut words = Vec::new(alloc);
    for word in bytes.split(|&byte| byte == b'|') {
        words.push(String::from_str(alloc, text_of(word))?)?;
    }
    Ok(words)
}

/// Prints what words request, or why they request nothing. Detects a request that isn't the named one, a flag that is lost, sources and
/// labels that are exchanged, and a refusal of words that are allowed.
pub fn say_job(rt: &HostRuntime, bytes: &[u8]) -> Option<()> {
    let words = words_in(rt.alloc(), bytes).ok()?;
    match command(rt.alloc(), words.as_slice()) {
        Ok(job) => say_parts(rt, &job),
        Err(fault) => say(rt, why(&fault)),
    }
    Some(())
}

/// Returns why words request nothing.
fn why(fault: &WordsFault) -> &'static str {
    match fault {
        WordsFault::Refused(_) => "refused",
        WordsFault::Version(_) => "version",
        WordsFault::InputTwice => "input twice",
        WordsFault::Memory => "out of memory",
    }
}

/// Prints the parts of a job, a line each.
fn say_parts(rt: &HostRuntime, job: &Job) {
    match job {
        Job::Files {
            question,
            task,
            plan,
        } => {
            say_question(rt, *question);
            say_source(rt, "task", task);
            say_source(rt, "plan", plan);
        }
        Job::Plans { task, labels, why } => {
            say(rt, if *why { "Plans with reasons" } else { "Plans" });
            say_source(rt, "task", task);
            for label in labels.as_slice() {
                let _ = println!(rt; "label {label}");
            }
        }
    }
}

/// Prints a request, and what its answer reports.
fn say_question(rt: &HostRuntime, question: Question) {
    let Question { request, detail } = question;
    let reasons = if detail.reasons { " with reasons" } else { "" };
    let trace = if detail.trace { " with a trace" } else { "" };
    let _ = println!(rt; "{request:?}{reasons}{trace}");
}

/// Prints where an input comes from, if it is read.
fn say_source(rt: &HostRuntime, input: &str, source: &Option<Source>) {
    let _ = match source {
        None => Ok(()),
        Some(Source::Input) => println!(rt; "{input} is standard input"),
        Some(Source::File(name)) => println!(rt; "{input} {name}"),
    };
}

/// Prints how the program ends at each result: the exit status and the line on standard error. Detects another status or line than
/// those that are promised.
pub fn say_endings(rt: &HostRuntime) {
    let results = [
        Ok(Status::Yes),
        Ok(Status::No),
        Err(ToolFault::Memory),
        Err(ToolFault::Read),
        Err(ToolFault::TooLong),
        Err(ToolFault::Write { written: 0 }),
        Err(ToolFault::Write { written: 7 }),
    ];
    for result in &results {
        let (status, line) = ending(result);
        let _ = println!(rt; "{status} {}", line.unwrap_or(""));
    }
}
