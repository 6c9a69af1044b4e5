// The arguments of the command line, as a job.
ghost use Rattle.std.specs.Prelude.{◌≡◌, ◌<◌, ℕ, Bool, List, length, Some, IfOk, MatchResult};
ghost use Rattle.sas_words.specs.Calls.{IsFor, IsMemory, bytes_of_words, words_in};
ghost use Rattle.sas_words.specs.Usage.{IsAccepted, IsCall};
ghost use Rattle.sas_tool.specs.Jobs.{Asks, IsInputTwice, IsRefusedFor, asked};
ghost use Rattle.sas_tool.specs.Sources.{IsSource, source_name};

use crate::{Detail, Question, Request};
use sas_words::{Call, Named, WordsFault, call_of};
use std::alloc::Global;

/// Where an input comes from.
#[derive(PartialEq, Eq, Drop)]
pub enum Source {
    /// Standard input.
    Input,
    /// The file of this name.
    File(String),
}

impl Source {
    /// Returns the argument that names the input.
    pub fn name(&self) -> &[u8]
        ensures { result.now ≡ source_name self.now }
    {
        match self {
            Source::Input => b"-",
            Source::File(name) => name.as_bytes(),
        }
    }

    /// Returns the source that an argument names.
    fn named(name: String) -> Source
        ensures { IsSource (words_in (Some name)) (Some result) }
    {
        if name.as_str() == "-" {
            Source::Input
        } else {
            Source::File(name)
        }
    }
}

/// What the arguments request.
#[derive(Drop)]
pub enum Job {
    /// A question about a task, a plan or both. An input that isn't read has no source.
    Files {
        question: Question,
        task: Option<Source>,
        plan: Option<Source>,
    },
    /// Whether many plans solve a task. The arguments that name them are their labels.
    Plans {
        task: Option<Source>,
        labels: Vec<String>,
        /// Whether the reasons for a no are reported.
        why: bool,
    },
}

/// Returns the job that the words of the command line request. The first word is the program's name.
pub fn command(alloc: Global, words: &[String]) -> Result<Job, WordsFault>
    // Words that are a call request its job, unless memory is refused or standard input is named twice.
    ensures taken { (name : List ℕ) (why : Bool) (files : List (List ℕ))
        → IsCall (bytes_of_words words.now) name why files
        → MatchResult result (Asks name why files) (IsRefusedFor files) }
    // Other words request none.
    ensures only { IfOk result (λ job. (name : List ℕ) × (why : Bool) × (files : List (List ℕ))
        × IsCall (bytes_of_words words.now) name why files × Asks name why files job) }
    ensures once { IfOk result (λ job. IsInputTwice job → ⊥) }
{
    match call_of(alloc, words) {
        Ok(call) => job_of(call).with_one_input(),
        Err(fault) => Err(fault),
    }
}

impl Job {
    /// Returns the job, unless both of its sources are standard input.
    fn with_one_input(self) -> Result<Job, WordsFault>
        ensures { MatchResult result (λ job. (job ≡ self) × (IsInputTwice self → ⊥))
            (λ fault. (fault ≡ WordsFault.InputTwice) × IsInputTwice self) }
    {
        match &self {
            Job::Files {
                task: Some(Source::Input),
                plan: Some(Source::Input),
                ..
            } => Err(WordsFault::InputTwice),
            _ => Ok(self),
        }
    }
}

/// Returns the job that a call requests.
fn job_of(call: Call) -> Job
    ensures { (name : List ℕ) (why : Bool) (files : List (List ℕ)) → IsAccepted name why files
        → IsFor name why files call → Asks name why files result }
{
    let Call {
        request,
        why,
        task,
        plans,
    } = call;
    let task = source_of(task);
    match question_of(request, why) {
        Some(question) => Job::Files {
            question,
            task,
            plan: source_of(only_word(plans)),
        },
        None => Job::Plans {
            task,
            labels: plans,
            why,
        },
    }
}

/// Returns the question that a request asks, with reasons or without. Over many plans it asks none.
fn question_of(request: Named, why: bool) -> Option<Question>
    ensures { result ≡ asked request why }
{
    let (request, trace) = match request {
        Named::Plan => (Request::Plan, false),
        Named::Plans => return None,
        Named::Trace => (Request::Plan, true),
        Named::Mutex => (Request::Mutex, false),
        Named::Show => (Request::Show, false),
        Named::Check => (Request::Check, false),
        Named::Print => (Request::Print, false),
        Named::Steps => (Request::Steps, false),
    };
    let detail = Detail {
        reasons: why,
        trace,
    };
    Some(Question { request, detail })
}

/// Returns the source that a word names, if there is one.
fn source_of(word: Option<String>) -> Option<Source>
    ensures { IsSource (words_in word) result }
{
    match word {
        Some(name) => Some(Source::named(name)),
        None => None,
    }
}

/// Returns the word, if there is one and no other.
fn only_word(words: Vec<String>) -> Option<String>
    ensures { length words.items < 2 → words_in result ≡ bytes_of_words words.items }
{
    let mut words = words;
    words.pop()
}
