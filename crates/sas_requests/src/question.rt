// What is asked.
use crate::Detail;

/// A request.
#[derive(Clone, Copy, Debug, PartialEq, Eq)]
pub enum Request {
    /// Print the summary of a task.
    Show,
    /// Print a task again, as a task file.
    Print,
    /// Print a plan again, as a plan file.
    Steps,
    /// Check whether a task is layered.
    Check,
    /// Check whether a plan solves a task.
    Plan,
    /// Check which mutex groups of a task are exclusive.
    Mutex,
}

/// A request, and what its answer reports.
#[derive(Clone, Copy, Debug, PartialEq, Eq)]
pub struct Question {
    pub request: Request,
    pub detail: Detail,
}
