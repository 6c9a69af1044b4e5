//! Makes steps, chooses the operator of each step, executes plans, and checks whether a plan is valid.
#![tactic(auto)]

mod anyway;
mod checker;
mod choice;
mod choosers;
mod deletions;
mod executor;
mod goal_and_cost;
mod laws;
mod long_chains;
mod observer;
mod other_senses;
mod plain_steps;
mod plan_check;
mod runner;
mod starts;
mod stepper;
mod steps;

pub use anyway::{Anyway, go_on_anyway};
pub use checker::{Checker, checker_for};
pub use choice::{Choice, later_applicable};
pub use choosers::{Chooser, NamedPlan, NumberedPlan};
pub use executor::{make_steps, replay, state_behind};
pub use laws::{number_laws, verdict_laws};
pub use long_chains::LongChains;
pub use observer::{NotesNothing, Observer};
pub use other_senses::other_senses_laws;
pub use plan_check::{PlanEnd, PlanFault, Valid, check, find_end};
pub use runner::Runner;
pub use starts::{StartFault, start_fault, starting_state};
pub use stepper::{Stepper, initial_of, stepper_for};
pub use steps::StepFault;
