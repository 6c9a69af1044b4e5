// The program: its arguments, its streams and how it ends.
ghost use Rattle.std.specs.Prelude.{◌≡◌, ◌≢◌, ◌<◌, Bool, false, ℕ, List, [], ◌∷◌, Some, codes, IfOk};
ghost use Rattle.std.specs.Result.{IsOkAnd};
ghost use Rattle.std.specs.Io.KnownBytes.{Appends};
ghost use Rattle.sas_requests.specs.Invariants.{Invariants};
ghost use Rattle.sas_words.specs.Calls.{bytes_of_words, name_of};
ghost use Rattle.sas_words.specs.declared.calls.Named.{Named};
ghost use Rattle.sas_words.specs.Grammar.{plan_words, task_words};
ghost use Rattle.sas_words.specs.Usage.{IsCall};
ghost use Rattle.sas_requests.specs.declared.question.Question.{Question};
ghost use Rattle.sas_tool.specs.Does.{Does, IsUnanswered, Refuses, words_held};
ghost use Rattle.sas_tool.specs.Endings.{Puts};
ghost use Rattle.sas_tool.specs.Held.{holds, word_held};
ghost use Rattle.sas_tool.specs.Jobs.{Asks, asked};
ghost use Rattle.sas_tool.specs.PlansRuns.{PlansDo};
ghost use Rattle.sas_tool.specs.Says.{Says};

use crate::arguments::{Job, command};
use crate::endings::{
    FAULT, INPUT_TWICE, INVALID_ARGUMENTS, NO, OUT_OF_MEMORY, WRITE_FAILED, YES, finish, stop,
};
use crate::files::{Inputs, NamedFiles, SystemFiles};
use crate::plan_files::{ManyPlans, finish_plans, run_plans};
use crate::runs::{Sources, run_files};
use sas_lines::Watched;
use sas_words::WordsFault;
use std::alloc::Global;
use std::io::{ErrorKind, Read, Write};
use std::os::fd::AsFd;
use std::process::ExitCode;
use std::rt::{Env, Files};
use std::{env, io};

/// Runs the program. `input`, `output` and `error` are its standard streams. In this order: its arguments, replacing closed streams,
/// opening its inputs, the run, and flushing standard output. The first of these that fails is reported by a line on standard error;
/// a failure to write that line is ignored. The exit status is 0 for yes, 1 for no, 2 for invalid arguments, and 3 otherwise. A read
/// of standard input that is closed at the start fails, and so does a write to standard output that is.
pub fn start<R: AllocGlobal + Env + Files + Print + Eprint, I: AsFd + Read + Copy + Drop>(
    rt: &R,
    input: &I,
    output: &impl AsFd,
    error: &(impl AsFd + Print),
) -> ExitCode {
    let arguments = match env::args(rt) {
        Ok(arguments) => arguments,
        Err(error) => return not_text(rt, error.kind()),
    };
    let Ok(words) = arguments.collect(rt.alloc()) else {
        return end_by(rt, FAULT, OUT_OF_MEMORY);
    };
    let words: Vec<String> = words;
    let files = SystemFiles {
        rt,
        input,
        output,
        error,
    };
    let inputs = Inputs {
        files: &files,
        standard: *input,
    };
    let mut out = Watched::new(io::writer(rt));
    let mut errors = Watched::new(io::writer(error));
    match answer_words(rt.alloc(), words.as_slice(), inputs, &mut out, &mut errors) {
        Ok(status) if status <= NO && out.into_device().flush().is_err() => {
            end_by(rt, FAULT, WRITE_FAILED)
        }
        Ok(status) => ExitCode::from(status),
        Err(fault) => refuse(rt, fault),
    }
}

/// Answers the call that the words of the command line are, and returns the exit status. Other words are handed back as a fault.
pub fn answer_words<N: NamedFiles, I: Read + Copy + Drop, W: Write, E: Write>(
    alloc: Global,
    words: &[String],
    inputs: Inputs<'_, N, I>,
    out: &mut Watched<W>,
    errors: &mut Watched<E>,
) -> Result<u8, WordsFault>
    requires out { out.old.failed ≡ false }
    // At a call for `plan` over two files that hold b and c, the exit status says whether the plan is valid.
    ensures headline { (why : Bool) (t p b c before : List ℕ)
        → IsCall (bytes_of_words words.now) (codes "plan") why (t ∷ p ∷ [])
        → word_held (N.held inputs.entry.files.now) (I.remaining inputs.entry.standard) t ≡ holds b
        → word_held (N.held inputs.entry.files.now) (I.remaining inputs.entry.standard) p ≡ holds c
        → W.contents out.old.device ≡ Some before
        → IsOkAnd result (Says b c
        (Appends (W.contents out.old.device) (W.contents out.new.device))) }
    // At a call for `mutex` over a file that holds b, each group that is printed as exclusive is an invariant.
    ensures invariants { (why : Bool) (t b before : List ℕ)
        → IsCall (bytes_of_words words.now) (codes "mutex") why (t ∷ [])
        → word_held (N.held inputs.entry.files.now) (I.remaining inputs.entry.standard) t ≡ holds b
        → W.contents out.old.device ≡ Some before
        → IsOkAnd result (λ status. status < 2 → Invariants b
        (Appends (W.contents out.old.device) (W.contents out.new.device))) }
    // At a call that asks a question over these files, it is answered, unless both are standard input.
    ensures does { (named : Named) (why : Bool) (question : Question) (files : List (List ℕ))
        → asked named why ≡ Some question
        → IsCall (bytes_of_words words.now) (name_of named) why files
        → files ≢ codes "-" ∷ codes "-" ∷ []
        → IsOkAnd result (Does question
        (words_held (N.held inputs.entry.files.now) (I.remaining inputs.entry.standard))
        (task_words (name_of named) files) (plan_words (name_of named) files)
        (W.contents out.old.device) (W.contents out.new.device) (out.new ≡ out.old)
        (λ text. Puts E.contents text errors.old errors.new)) }
    // If both are, that is an error, and nothing is read or printed.
    ensures twice { (named : Named) (why : Bool) (question : Question)
        → asked named why ≡ Some question
        → IsCall (bytes_of_words words.now) (name_of named) why (codes "-" ∷ codes "-" ∷ [])
        → IsOkAnd result (IsUnanswered (λ text. Puts E.contents text errors.old errors.new))
        × (out.new ≡ out.old) }
    // Words that are no call print nothing on standard output.
    ensures others { ((name : List ℕ) (why : Bool) (files : List (List ℕ))
        → IsCall (bytes_of_words words.now) name why files → ⊥)
        → (out.new ≡ out.old) × IfOk result (λ status. 1 < status) }
    // At a call for `plans`, the plans are judged, unless standard input is named twice or a label has a line end.
    ensures plans { (why : Bool) (t : List ℕ) (labels : List (List ℕ))
        → IsCall (bytes_of_words words.now) (codes "plans") why (t ∷ labels)
        → IsOkAnd result (PlansDo
        (word_held (N.held inputs.entry.files.now) (I.remaining inputs.entry.standard))
        why t labels (W.contents out.old.device) (W.contents out.new.device) (out.new ≡ out.old)
        (λ text. Puts E.contents text errors.old errors.new)) }
{
    match command(alloc, words) {
        Ok(job) => Ok(answer_job(alloc, &job, inputs, out, errors)),
        Err(fault) => say_fault(fault, errors),
    }
}

/// Ends where a call can't be answered. A fault of words that are none is handed back.
fn say_fault<E: Write>(fault: WordsFault, errors: &mut Watched<E>) -> Result<u8, WordsFault>
    ensures { Refuses (λ text. Puts E.contents text errors.old errors.new) result fault }
{
    match fault {
        WordsFault::Memory => Ok(stop(errors, FAULT, OUT_OF_MEMORY)),
        WordsFault::InputTwice => Ok(stop(errors, INVALID_ARGUMENTS, INPUT_TWICE)),
        other => Err(other),
    }
}

/// Does what a job requests, and returns the exit status.
fn answer_job<N: NamedFiles, I: Read + Copy + Drop, W: Write, E: Write>(
    alloc: Global,
    job: &Job,
    inputs: Inputs<'_, N, I>,
    out: &mut Watched<W>,
    errors: &mut Watched<E>,
) -> u8
    requires out { out.old.failed ≡ false }
    ensures does { (named : Named) (why : Bool) (question : Question) (files : List (List ℕ))
        → asked named why ≡ Some question
        → Asks (name_of named) why files job.now
        → Does question
        (words_held (N.held inputs.entry.files.now) (I.remaining inputs.entry.standard))
        (task_words (name_of named) files) (plan_words (name_of named) files)
        (W.contents out.old.device) (W.contents out.new.device) (out.new ≡ out.old)
        (λ text. Puts E.contents text errors.old errors.new) result }
    ensures plans { (why : Bool) (t : List ℕ) (labels : List (List ℕ))
        → Asks (codes "plans") why (t ∷ labels) job.now
        → PlansDo (word_held (N.held inputs.entry.files.now) (I.remaining inputs.entry.standard))
        why t labels (W.contents out.old.device) (W.contents out.new.device) (out.new ≡ out.old)
        (λ text. Puts E.contents text errors.old errors.new) result }
{
    match job {
        Job::Files {
            question,
            task,
            plan,
        } => {
            let run = run_files(alloc, inputs, *question, Sources { task, plan }, out);
            finish(errors, run.ended, question.detail.reasons, run.last)
        }
        Job::Plans { task, labels, why } => {
            let plans = ManyPlans {
                task,
                labels: labels.as_slice(),
                why: *why,
            };
            let ended = run_plans(alloc, inputs, plans, out);
            finish_plans(errors, ended, plans)
        }
    }
}

/// Ends where the words are no call: with the text of the parser, or with the version.
fn refuse<R: Print + Eprint>(rt: &R, fault: WordsFault) -> ExitCode {
    match fault {
        WordsFault::Refused(error) => {
            let _ = rt.eprint(error);
            ExitCode::from(INVALID_ARGUMENTS)
        }
        WordsFault::Version(version) => match rt.print(version) {
            Ok(()) => ExitCode::from(YES),
            Err(_) => end_by(rt, FAULT, WRITE_FAILED),
        },
        WordsFault::InputTwice => end_by(rt, INVALID_ARGUMENTS, INPUT_TWICE),
        WordsFault::Memory => end_by(rt, FAULT, OUT_OF_MEMORY),
    }
}

/// Ends if the arguments aren't text.
fn not_text<R: Eprint>(rt: &R, kind: ErrorKind) -> ExitCode {
    match kind {
        ErrorKind::OutOfMemory => end_by(rt, FAULT, OUT_OF_MEMORY),
        _ => end_by(rt, INVALID_ARGUMENTS, "sas: an argument isn't valid UTF-8"),
    }
}

/// Prints the line on standard error, and returns the exit status.
fn end_by<R: Eprint>(rt: &R, status: u8, line: &str) -> ExitCode {
    let _ = rt.eprintln(line);
    ExitCode::from(status)
}
