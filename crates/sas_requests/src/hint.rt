// Hints: what may have gone wrong with a file that is refused.
ghost use Rattle.std.specs.Prelude.{◌≡◌};
ghost use Rattle.sas_reader.specs.Found.{kept_in};
ghost use Rattle.sas_requests.specs.Hint.{first_hint, has_mark, hint_for, hint_words, hints, is_compressed};

use sas_reader::{Excerpt, Fault, Kind};

/// What may have gone wrong with a file that is refused.
#[derive(Clone, Copy)]
pub enum Hint {
    Empty,
    Compressed,
    ByteOrderMark,
    ReturnsAlone,
    /// A plan was expected.
    TaskForPlan,
    /// A task was expected.
    PlanForTask,
    OtherVersion,
    CostForm,
    Comment,
    CostNotLast,
    EmptyLine,
    OtherPlanner,
    NoLineEnd,
    NoCostLine,
    CutOff,
}

/// What alone is missing at the end of a file.
#[derive(Clone, Copy)]
pub struct Lacks {
    /// With one line end (LF) more it is a text.
    pub line_end: bool,
    /// It is a plan, and with a cost line more it is a text.
    pub cost_line: bool,
}

impl Hint {
    /// Returns the words of the hint.
    pub(crate) fn words(self) -> &'static [u8]
        ensures { result.now ≡ hint_words self }
    {
        match self {
            Hint::Empty => b"the file is empty",
            Hint::Compressed => b"the file is compressed",
            Hint::ByteOrderMark => b"the file begins with a byte order mark",
            Hint::ReturnsAlone => b"line ends are CR alone",
            Hint::TaskForPlan => b"this is a task: the order is TASK PLAN",
            Hint::PlanForTask => b"this is a plan or PDDL: the task is the file output.sas",
            Hint::OtherVersion => b"only version 3 is read",
            Hint::CostForm => b"this isn't the form of a cost line",
            Hint::Comment => b"comments aren't read",
            Hint::CostNotLast => b"the cost line must be the last line",
            Hint::EmptyLine => b"an empty line follows the last line",
            Hint::OtherPlanner => b"plan.awk of the examples converts plans of other planners",
            Hint::NoLineEnd => b"only the last line end is missing",
            Hint::NoCostLine => b"the cost line is missing",
            Hint::CutOff => b"the file is cut off",
        }
    }
}

/// Returns whether the bytes begin like a file that gzip, bzip2, xz or Zstandard wrote.
fn is_compressed(bytes: &[u8]) -> bool
    ensures { result ≡ is_compressed bytes.now }
{
    bytes.starts_with(b"\x1f\x8b")
        | bytes.starts_with(b"BZh")
        | bytes.starts_with(b"\xfd7zXZ\0")
        | bytes.starts_with(b"\x28\xb5\x2f\xfd")
}

/// Returns whether the bytes begin with a byte order mark: that of UTF-8, or one of UTF-16.
fn has_mark(bytes: &[u8]) -> bool
    ensures { result ≡ has_mark bytes.now }
{
    bytes.starts_with(b"\xef\xbb\xbf")
        | bytes.starts_with(b"\xff\xfe")
        | bytes.starts_with(b"\xfe\xff")
}

/// Returns the hints in order, each with whether it applies to the fault of a task, or else of a plan.
fn hints(task: bool, fault: Fault, found: &Excerpt, lacks: Lacks) -> [(Hint, bool); 15]
    ensures { result ≡ hints task fault (kept_in found.now) lacks }
{
    let first = fault.line == 1;
    let keyword = matches!(fault.kind, Kind::Keyword);
    let value = matches!(fault.kind, Kind::Value);
    let trailing = matches!(fault.kind, Kind::Trailing);
    let end = matches!(fault.kind, Kind::End);
    let text = found.bytes();
    let is_task = text == b"begin_version".as_slice();
    let is_step = text.starts_with(b"(");
    let is_comment = text.starts_with(b";");
    let is_end = text.starts_with(b"\n") | text.starts_with(b"\r");
    let comment = (keyword | trailing) & is_comment | found.semicolon;
    [
        (Hint::Empty, first & end & text.is_empty()),
        (Hint::Compressed, first & is_compressed(text)),
        (Hint::ByteOrderMark, first & has_mark(text)),
        (Hint::ReturnsAlone, first & end & found.inner_return),
        (Hint::TaskForPlan, !task & first & keyword & is_task),
        (
            Hint::PlanForTask,
            task & first & keyword & (is_step | is_comment),
        ),
        (Hint::OtherVersion, task & value & (fault.line == 2)),
        (Hint::CostForm, !task & keyword & found.cost),
        (Hint::Comment, !task & comment),
        (Hint::CostNotLast, !task & trailing & is_step),
        (Hint::EmptyLine, trailing & is_end),
        (Hint::OtherPlanner, !task & keyword),
        (Hint::NoLineEnd, end & lacks.line_end),
        (Hint::NoCostLine, !task & end & lacks.cost_line),
        (Hint::CutOff, end),
    ]
}

/// Returns the first hint that applies, if one does.
fn first_hint(hints: &[(Hint, bool)]) -> Option<Hint>
    ensures { result ≡ first_hint hints.now }
{
    hints.iter().find(|row| row.1).map(|row| row.0)
}

/// Returns the hint for the fault of a task, or else of a plan, if there is one.
pub(crate) fn hint_for(task: bool, fault: Fault, found: &Excerpt, lacks: Lacks) -> Option<Hint>
    ensures { result ≡ hint_for task fault (kept_in found.now) lacks }
{
    first_hint(&hints(task, fault, found, lacks))
}
