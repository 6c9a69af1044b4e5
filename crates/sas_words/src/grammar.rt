// The grammar of the command line.
ghost use Rattle.std.specs.Prelude.{◌≡◌, IfOk, false, codes};
ghost use Rattle.clap.specs.Words.{App, new_app, rule_of};
ghost use Rattle.sas_words.specs.Grammar.{IsCommand, checks_app, explained, file_rule, files_rule, over_plan, over_plans, over_task, sas_app, top_app, why_rule, with_request};

use clap::{Arg, ArgAction, Command};
use std::alloc::{AllocError, Global};

/// The program's version.
const VERSION: &str = "1.1.0";

/// The flag for reasons.
pub const WHY: &str = "why";

/// What follows each help.
const STATUSES_AND_FILES: &str = "\
The exit status is 0 for yes, 1 for no, 2 for invalid arguments or a help, 3 if there is no answer.
Fast Downward's translator writes the task file, output.sas. Its driver deletes that file at the
end, except with --keep-sas-file. A compressed file is read from standard input:
  zcat output.sas.gz | sas plan - sas_plan";

const ABOUT: &str = "Reads, checks and validates task files and plan files of Fast Downward";

const ABOUT_PLAN: &str = "Checks whether a plan solves a task; for many plans, see plans";

const ABOUT_PLANS: &str = "Checks many plans of one task, and names the cheapest valid one";

const ABOUT_TRACE: &str =
    "Prints what each step of a plan changes, and whether the plan solves a task";

const ABOUT_MUTEX: &str =
    "Prints for each mutex group of a task whether it is shown to be exclusive";

const ABOUT_SHOW: &str = "Prints a summary of a task: its numbers, initial state and goal";

const ABOUT_CHECK: &str = "Checks whether a task file is well formed and its axioms are stratified";

const ABOUT_PRINT: &str = "Prints a task file in its canonical form";

const ABOUT_STEPS: &str =
    "Prints a plan file in its canonical form; without arguments, that on standard input";

/// Returns the grammar of the arguments. Its help names the requests in this order.
pub fn grammar<'a>(alloc: Global) -> Result<Command<'a>, AllocError>
    ensures { IfOk result (IsCommand sas_app) }
{
    let checks = with_checks(alloc)?;
    let mutex = add(checks, task_request(alloc, "mutex", ABOUT_MUTEX))?;
    let show = add(mutex, task_request(alloc, "show", ABOUT_SHOW))?;
    let check = add(show, task_request(alloc, "check", ABOUT_CHECK))?;
    let print = add(check, task_request(alloc, "print", ABOUT_PRINT))?;
    add(print, steps_request(alloc))
}

/// Returns the program with the requests that check plans.
fn with_checks<'a>(alloc: Global) -> Result<Command<'a>, AllocError>
    ensures { IfOk result (IsCommand checks_app) }
{
    let plan = add(program(alloc), plan_request(alloc, "plan", ABOUT_PLAN))?;
    let plans = add(plan, plans_request(alloc))?;
    add(plans, plan_request(alloc, "trace", ABOUT_TRACE))
}

/// Adds a request to the program. Its grammar may have been refused memory: here alone the program is dropped then.
fn add<'a>(
    program: Command<'a>,
    request: Result<Command<'a>, AllocError>,
) -> Result<Command<'a>, AllocError>
    ensures { (app of_request : App) → IsCommand app program.entry
        → IfOk request.entry (IsCommand of_request)
        → IfOk result (IsCommand (with_request app of_request)) }
{
    match request {
        Ok(request) => program.subcommand(request),
        Err(error) => {
            drop(program);
            Err(error)
        }
    }
}

/// Returns the program without requests.
fn program<'a>(alloc: Global) -> Command<'a>
    ensures { IsCommand top_app result }
{
    command_named(alloc, "sas", ABOUT).version(VERSION)
}

/// Returns a request over a task and a plan, with the flag for reasons.
fn plan_request<'a>(alloc: Global, name: &'a str, about: &'a str) -> Result<Command<'a>, AllocError>
    ensures { IfOk result (IsCommand (over_plan (over_task (explained name.entry.now)))) }
{
    with_plan(alloc, task_request(alloc, name, about)?)
}

fn plans_request<'a>(alloc: Global) -> Result<Command<'a>, AllocError>
    ensures { IfOk result (IsCommand (over_plans (over_task (explained (codes "plans"))))) }
{
    with_plans(alloc, task_request(alloc, "plans", ABOUT_PLANS)?)
}

fn steps_request<'a>(alloc: Global) -> Result<Command<'a>, AllocError>
    ensures { IfOk result (IsCommand (over_plan (explained (codes "steps")))) }
{
    with_plan(alloc, with_flag(alloc, "steps", ABOUT_STEPS)?)
}

/// Returns a request over a task, with the flag for reasons.
fn task_request<'a>(alloc: Global, name: &'a str, about: &'a str) -> Result<Command<'a>, AllocError>
    ensures { IfOk result (IsCommand (over_task (explained name.entry.now))) }
{
    with_task(alloc, with_flag(alloc, name, about)?)
}

/// Returns a request with the flag for reasons.
fn with_flag<'a>(alloc: Global, name: &'a str, about: &'a str) -> Result<Command<'a>, AllocError>
    ensures { IfOk result (IsCommand (explained name.entry.now)) }
{
    command_named(alloc, name, about).arg(the_flag(alloc))
}

/// Returns a command without arguments.
fn command_named<'a>(alloc: Global, name: &'a str, about: &'a str) -> Command<'a>
    ensures { IsCommand (new_app name.entry.now) result }
{
    Command::new(alloc, name)
        .about(about)
        .after_help(STATUSES_AND_FILES)
}

fn with_task<'a>(alloc: Global, request: Command<'a>) -> Result<Command<'a>, AllocError>
    ensures { (app : App) → IsCommand app request.entry → IfOk result (IsCommand (over_task app)) }
{
    request.arg(operand(alloc, "TASK", "The task file, or - for standard input"))
}

fn with_plan<'a>(alloc: Global, request: Command<'a>) -> Result<Command<'a>, AllocError>
    ensures { (app : App) → IsCommand app request.entry → IfOk result (IsCommand (over_plan app)) }
{
    request.arg(operand(alloc, "PLAN", "The plan file, or - for standard input"))
}

fn with_plans<'a>(alloc: Global, request: Command<'a>) -> Result<Command<'a>, AllocError>
    ensures { (app : App) → IsCommand app request.entry → IfOk result (IsCommand (over_plans app)) }
{
    request.arg(the_plans(alloc))
}

fn the_flag<'a>(alloc: Global) -> Arg<'a>
    ensures rule { rule_of result ≡ why_rule }
    ensures local { result.global ≡ false }
{
    Arg::new(alloc, WHY)
        .long(WHY)
        .action(ArgAction::SetTrue)
        .help("Adds the reasons for a no")
}

/// Returns an argument that names a file, and that can't be left out.
fn operand<'a>(alloc: Global, id: &'a str, help: &'a str) -> Arg<'a>
    ensures rule { rule_of result ≡ file_rule id.entry.now }
    ensures local { result.global ≡ false }
{
    Arg::new(alloc, id).required(true).help(help)
}

/// Returns the argument that names the plan files of `plans`.
fn the_plans<'a>(alloc: Global) -> Arg<'a>
    ensures rule { rule_of result ≡ files_rule }
    ensures local { result.global ≡ false }
{
    let help = "The plan files; one of them may be - for standard input";
    operand(alloc, "PLAN", help).num_args(1..)
}
