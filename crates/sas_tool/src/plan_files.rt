// Many plan files, opened one after another.
ghost use Rattle.std.specs.Prelude.{◌≡◌, ◌↔◌, ◌≤◌, ◌++◌, ℕ, List, [], ◌∷◌, Some, All, IfOk, IsTrue, false, codes, slice_index_or};
ghost use Rattle.std.specs.Io.KnownBytes.{Appends};
ghost use Rattle.sas_requests.specs.Inputs.{IsLabel, tool_result};
ghost use Rattle.sas_requests.specs.Judged.{EndsPlans, JudgeOut, PlansHeadline};
ghost use Rattle.sas_tool.specs.Files.{source_held};
ghost use Rattle.sas_tool.specs.Held.{word_held};
ghost use Rattle.sas_tool.specs.PlansRuns.{AllHold, PlansRan};
ghost use Rattle.sas_tool.specs.Sources.{IsSource};
ghost use Rattle.sas_words.specs.Calls.{bytes_of_words};
ghost use Rattle.sas_tool.specs.Endings.{Puts};
ghost use Rattle.sas_tool.specs.Labels.{is_input, times_named};
ghost use Rattle.sas_tool.specs.PlansEndings.{fault_words, plans_status, plans_text};
ghost use Rattle.std.specs.String.{string_bytes};

use crate::arguments::Source;
use crate::endings::{
    Ended, FAULT, INPUT_TWICE, INVALID_ARGUMENTS, NOT_READY, finish, put, put_line, stop,
};
use crate::files::{Inputs, NamedFiles};
use crate::{Status, judge};
use sas_lines::{OpenInput, Watched};
use sas_requests::{InputFault, JudgeFault, PlanInputs, is_label};
use std::alloc::Global;
use std::io::{Read, Write};

/// Plan files, by the arguments that name them, which are their labels.
#[derive(Clone, Copy)]
struct PlanFiles<'p, N, I> {
    inputs: Inputs<'p, N, I>,
    labels: &'p [String],
}

impl<'p, N: NamedFiles, I: Read + Copy + Drop> PlanInputs for PlanFiles<'p, N, I> {
    ghost use Rattle.std.specs.Prelude.{◌≡◌, [], slice_index_or};
    ghost use Rattle.sas_lines.specs.Inputs.{left_of};
    ghost use Rattle.sas_words.specs.Calls.{bytes_of_words};
    ghost use Rattle.sas_tool.specs.Files.{Opens, bytes_if_known};
    ghost use Rattle.sas_tool.specs.Held.{word_held};

    type Input = OpenInput<N::File, I>;

    ghost labels = { λ plans. bytes_of_words plans.labels.now };

    ghost bytes = { λ plans number. bytes_if_known
        (word_held (N.held plans.inputs.files.now) (I.remaining plans.inputs.standard)
        (slice_index_or (bytes_of_words plans.labels.now) number [])) };

    // The files stay as they were.
    ghost open_gives = { λ before number given after. (after ≡ before)
        × Opens (left_of N.File.remaining I.remaining)
        (word_held (N.held before.inputs.files.now) (I.remaining before.inputs.standard)
        (slice_index_or (bytes_of_words before.labels.now) number [])) given };

    fn count(&self) -> usize {
        self.labels.len()
    }

    fn label(&self, number: usize) -> &[u8] {
        self.labels[number].as_bytes()
    }

    fn open(&mut self, number: usize) -> Option<OpenInput<N::File, I>> {
        let labels = self.labels;
        self.inputs.open_word(labels[number].as_str())
    }
}

/// A task, the labels of its plans, and whether the reasons for a no are reported.
#[derive(Clone, Copy)]
pub struct ManyPlans<'p> {
    pub task: &'p Option<Source>,
    pub labels: &'p [String],
    pub why: bool,
}

/// How a run over many plans ended.
#[derive(Clone, Copy)]
pub enum PlansEnded {
    /// A standard stream that is closed couldn't be replaced.
    NotReady,
    /// A label has a line end.
    NoLabel,
    InputTwice,
    TaskNotOpened,
    Judged(Result<Status, JudgeFault>),
}

/// Opens a task, and judges its plans.
pub fn run_plans<N: NamedFiles, I: Read + Copy + Drop, W: Write>(
    alloc: Global,
    inputs: Inputs<'_, N, I>,
    plans: ManyPlans<'_>,
    out: &mut Watched<W>,
) -> PlansEnded
    requires out { out.old.failed ≡ false }
    ensures { let held = N.held inputs.entry.files.now in
        let standard = I.remaining inputs.entry.standard in
        PlansRan plans.entry.why (bytes_of_words plans.entry.labels.now)
        (2 ≤ times_named (is_input plans.entry.task.now) plans.entry.labels.now)
        (source_held held standard plans.entry.task.now) (word_held held standard)
        (W.contents out.old.device) (W.contents out.new.device) (out.new ≡ out.old) result }
{
    let Some(ready) = inputs.files.ready() else {
        return PlansEnded::NotReady;
    };
    let ended = run_ready(alloc, inputs, plans, out);
    drop(ready);
    ended
}

/// Does so once files may be opened. No plan is opened before its turn.
fn run_ready<N: NamedFiles, I: Read + Copy + Drop, W: Write>(
    alloc: Global,
    inputs: Inputs<'_, N, I>,
    plans: ManyPlans<'_>,
    out: &mut Watched<W>,
) -> PlansEnded
    requires out { out.old.failed ≡ false }
    ensures { let held = N.held inputs.entry.files.now in
        let standard = I.remaining inputs.entry.standard in
        PlansRan plans.entry.why (bytes_of_words plans.entry.labels.now)
        (2 ≤ times_named (is_input plans.entry.task.now) plans.entry.labels.now)
        (source_held held standard plans.entry.task.now) (word_held held standard)
        (W.contents out.old.device) (W.contents out.new.device) (out.new ≡ out.old) result }
{
    let labels = plans.labels;
    if !are_label_texts(labels) {
        return PlansEnded::NoLabel;
    }
    if name_input_twice(labels, is_standard_input(plans.task)) {
        return PlansEnded::InputTwice;
    }
    match inputs.open(plans.task) {
        Some(task) => {
            let files = PlanFiles { inputs, labels };
            PlansEnded::Judged(judge_plans(alloc, plans.why, task, files, out))
        }
        None => PlansEnded::TaskNotOpened,
    }
}

/// Judges plans of a task that is open.
fn judge_plans<T: Read + Drop, N: NamedFiles, I: Read + Copy + Drop, W: Write>(
    alloc: Global,
    why: bool,
    task: T,
    plans: PlanFiles<'_, N, I>,
    out: &mut Watched<W>,
) -> Result<Status, JudgeFault>
    requires labels { All (λ label. IsLabel (string_bytes label)) plans.labels.now }
    requires out { out.old.failed ≡ false }
    ensures output { let labels = bytes_of_words plans.entry.labels.now in
        (b : List ℕ) (cs : List (List ℕ)) → T.remaining task ≡ Some b
        → AllHold (word_held (N.held plans.entry.inputs.files.now)
        (I.remaining plans.entry.inputs.standard)) labels cs
        → EndsPlans why (JudgeOut why labels b cs)
        (Appends (W.contents out.old.device) (W.contents out.new.device)) (tool_result result) }
    ensures headline { let labels = bytes_of_words plans.entry.labels.now in
        IfOk result (λ status. (b before : List ℕ) (cs : List (List ℕ)) → T.remaining task ≡ Some b
        → AllHold (word_held (N.held plans.entry.inputs.files.now)
        (I.remaining plans.entry.inputs.standard)) labels cs
        → W.contents out.old.device ≡ Some before
        → PlansHeadline why labels b cs
        (Appends (W.contents out.old.device) (W.contents out.new.device)) status) }
{
    let mut task = Watched::new(task);
    let mut plans = plans;
    let result = judge(alloc, why, &mut task, &mut plans, out);
    drop(task);
    result
}

/// Ends with the exit status of a run over these plans, after its line on standard error, if there is one. With reasons a second line
/// names the task, if the first one is about it.
pub fn finish_plans<E: Write>(
    errors: &mut Watched<E>,
    ended: PlansEnded,
    plans: ManyPlans<'_>,
) -> u8
    ensures status { result ≡ plans_status ended }
    ensures text { (task : List ℕ) → IsSource (task ∷ []) plans.entry.task.now
        → Puts E.contents (plans_text plans.entry.why task
        (bytes_of_words plans.entry.labels.now) ended) errors.old errors.new }
{
    match ended {
        PlansEnded::NotReady => stop(errors, FAULT, NOT_READY),
        PlansEnded::NoLabel => {
            stop(
                errors,
                INVALID_ARGUMENTS,
                "sas: a plan's name has a line end",
            )
        }
        PlansEnded::InputTwice => stop(errors, INVALID_ARGUMENTS, INPUT_TWICE),
        PlansEnded::TaskNotOpened => finish(errors, Ended::TaskNotOpened, plans.why, plans.task),
        PlansEnded::Judged(Ok(status)) => {
            finish(errors, Ended::Answered(Ok(status)), plans.why, plans.task)
        }
        PlansEnded::Judged(Err(JudgeFault::Tool(fault))) => {
            finish(errors, Ended::Answered(Err(fault)), plans.why, plans.task)
        }
        PlansEnded::Judged(Err(JudgeFault::Plan { number, fault })) => {
            stop_at(errors, fault, plans.labels, number)
        }
    }
}

/// Ends where the plan with this number wasn't read.
fn stop_at<E: Write>(
    errors: &mut Watched<E>,
    fault: InputFault,
    labels: &[String],
    number: usize,
) -> u8
    ensures status { result ≡ 3 }
    ensures text { Puts E.contents (fault_words fault
        ++ (slice_index_or (bytes_of_words labels.now) number [] ++ codes "\n"))
        errors.old errors.new }
{
    put(errors, words_of(fault).as_bytes());
    put_line(errors, label_at(labels, number));
    FAULT
}

/// Returns the words that the label of a plan follows, if it wasn't read.
fn words_of(fault: InputFault) -> &'static str
    ensures { result.now ≡ fault_words fault }
{
    match fault {
        InputFault::NotOpened => "sas: cannot open the plan: ",
        InputFault::Read => "sas: read failed: ",
        InputFault::TooLong => "sas: input too long: ",
    }
}

/// Returns the label with this number.
fn label_at(labels: &[String], number: usize) -> &[u8]
    ensures { result.now ≡ slice_index_or (bytes_of_words labels.now) number [] }
{
    match labels.get(number) {
        Some(label) => label.as_bytes(),
        None => b"",
    }
}

/// Returns whether a source is standard input.
fn is_standard_input(source: &Option<Source>) -> bool
    ensures { result ≡ is_input source.now }
{
    matches!(source, Some(Source::Input))
}

/// Returns whether none of the labels has a line end.
fn are_label_texts(labels: &[String]) -> bool
    ensures { IsTrue result ↔ All (λ label. IsLabel (string_bytes label)) labels.now }
{
    for label in labels {
        if !is_label(label.as_bytes()) {
            return false;
        }
    }
    true
}

/// Returns whether standard input is named twice: by the task and a label, or by two labels.
fn name_input_twice(labels: &[String], by_task: bool) -> bool
    ensures { IsTrue result ↔ (2 ≤ times_named by_task labels.now) }
{
    let mut named = by_task;
    for label in labels {
        if label.as_str() == "-" {
            if named {
                return true;
            }
            named = true;
        }
    }
    false
}
