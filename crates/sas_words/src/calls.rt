// What the words of a call say.
ghost use Rattle.std.specs.Prelude.{◌≡◌, IfOk, MatchResult, ℕ, Bool, List, [], ◌∷◌, length, option_map};
ghost use Rattle.std.specs.Option.{option_map_or};
ghost use Rattle.std.specs.String.{string_bytes};
ghost use Rattle.clap.specs.Words.{first_value, found_of, kind_of, matched_of, raw_values, rows_of, subcommand_rows_of};
ghost use Rattle.sas_words.specs.Grammar.{Among, HasFound, HasRows, request_names};
ghost use Rattle.sas_words.specs.Usage.{IsCall};
ghost use Rattle.sas_words.specs.Calls.{IsFor, IsMemory, bytes_of_words, name_of};

use crate::grammar::{WHY, grammar};
use clap::error::ErrorKind;
use clap::{ArgMatches, Error};
use std::alloc::{AllocError, Global};

/// A request, as the command line names it.
#[derive(Clone, Copy)]
pub enum Named {
    Plan,
    Plans,
    Trace,
    Mutex,
    Show,
    Check,
    Print,
    Steps,
}

/// A call of the program.
#[derive(Drop)]
pub struct Call {
    pub request: Named,
    /// Whether it has the flag for reasons.
    pub why: bool,
    /// The word that names the task, if the request is over one.
    pub task: Option<String>,
    /// The words that name plans.
    pub plans: Vec<String>,
}

/// Why words are no call that can be answered.
#[derive(Drop)]
pub enum WordsFault {
    /// The arguments are invalid, or request help; the error has the text for the user.
    Refused(Error),
    /// The one argument requests the version; the error has the text for the user.
    Version(Error),
    /// Standard input is named twice.
    InputTwice,
    /// Memory was refused.
    Memory,
}

impl From<AllocError> for WordsFault {
    ghost use Rattle.sas_words.specs.declared.calls.WordsFault.TheVariants.{Memory};

    ghost from_gives = { λ _ e. e ≡ Memory };

    fn from(_error: AllocError) -> WordsFault {
        WordsFault::Memory
    }
}

/// Returns the call that the words of the command line are. The first word is the program's name.
pub fn call_of(alloc: Global, words: &[String]) -> Result<Call, WordsFault>
    // Each call is taken, unless memory is refused.
    ensures taken { (request : List ℕ) (why : Bool) (files : List (List ℕ))
        → IsCall (bytes_of_words words.now) request why files
        → MatchResult result (IsFor request why files) IsMemory }
    // Nothing else is.
    ensures only { IfOk result (λ call. (request : List ℕ) × (why : Bool) × (files : List (List ℕ))
        × IsCall (bytes_of_words words.now) request why files × IsFor request why files call) }
{
    // For the proof: there are fewer than 2^64 words.
    let _ = count(words);
    let program = grammar(alloc)?;
    match program.try_get_matches_from(words) {
        Ok(matches) => found_call(alloc, &matches),
        Err(error) => Err(words_fault(error, words)),
    }
}

/// Returns the number of words.
fn count(words: &[String]) -> usize
    ensures { result ≡ length words.now }
{
    words.len()
}

/// Returns the call that was found. If the words name no request, it is `steps` over standard input.
fn found_call(alloc: Global, matches: &ArgMatches<'_>) -> Result<Call, WordsFault>
    ensures { (request : List ℕ) (why : Bool) (files : List (List ℕ))
        → HasFound request why files (subcommand_rows_of matches.now)
        → MatchResult result (IsFor request why files) IsMemory }
{
    match matches.subcommand() {
        Some((name, inner)) => call_named(alloc, name, inner),
        None => Ok(Call {
            request: Named::Steps,
            why: false,
            task: None,
            plans: one_word(alloc, "-")?,
        }),
    }
}

/// Returns the call for the request of this name, with what was found behind it.
fn call_named(alloc: Global, name: &str, matches: &ArgMatches<'_>) -> Result<Call, WordsFault>
    ensures { (why : Bool) (files : List (List ℕ))
        → HasRows name.now why files (rows_of (found_of matches.now))
        → MatchResult result (IsFor name.now why files) IsMemory }
{
    let task = first_word(alloc, matches, "TASK")?;
    Ok(Call {
        request: Named::of(name),
        why: matches.get_flag(WHY),
        task,
        plans: words_of(alloc, matches, "PLAN")?,
    })
}

impl Named {
    /// Returns the request of this name.
    fn of(name: &str) -> Named
        ensures { Among request_names name.now → name_of result ≡ name.now }
    {
        match name {
            "plan" => Named::Plan,
            "plans" => Named::Plans,
            "trace" => Named::Trace,
            "mutex" => Named::Mutex,
            "show" => Named::Show,
            "check" => Named::Check,
            "print" => Named::Print,
            _ => Named::Steps,
        }
    }
}

/// Returns the word alone.
fn one_word(alloc: Global, word: &str) -> Result<Vec<String>, AllocError>
    ensures { IfOk result (λ words. bytes_of_words words.items ≡ word.now ∷ []) }
{
    let mut words = Vec::new(alloc);
    words.push(String::from_str(alloc, word)?)?;
    Ok(words)
}

/// Returns the first word that an argument has, if it has one.
fn first_word(
    alloc: Global,
    matches: &ArgMatches<'_>,
    id: &str,
) -> Result<Option<String>, AllocError>
    ensures { IfOk result (λ word. option_map string_bytes word
        ≡ first_value (found_of matches.now) id.now) }
{
    match matches.get_str(id) {
        Some(word) => Ok(Some(String::from_str(alloc, word)?)),
        None => Ok(None),
    }
}

/// Returns the words that an argument has, in order.
fn words_of(alloc: Global, matches: &ArgMatches<'_>, id: &str) -> Result<Vec<String>, AllocError>
    ensures { IfOk result (λ words. bytes_of_words words.items
        ≡ option_map_or raw_values (matched_of (found_of matches.now) id.now) []) }
{
    let mut words = Vec::new(alloc);
    if let Some(names) = matches.get_strs(id) {
        for name in names {
            words.push(String::from_str(alloc, name)?)?;
        }
    }
    Ok(words)
}

/// Returns why the words are no call, if the parser returned this error.
fn words_fault(error: Error, words: &[String]) -> WordsFault
    ensures { kind_of error ≡ ErrorKind.OutOfMemory → IsMemory result }
{
    match error.kind() {
        ErrorKind::OutOfMemory => WordsFault::Memory,
        ErrorKind::DisplayVersion if request_version(words) => WordsFault::Version(error),
        _ => WordsFault::Refused(error),
    }
}

/// Returns whether the words request the version, and nothing else.
fn request_version(words: &[String]) -> bool {
    words.len() == 2 && matches!(words[1].as_str(), "--version" | "-V")
}
