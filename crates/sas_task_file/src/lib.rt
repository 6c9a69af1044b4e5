//! The format of task files: its lines in order, as definitions and as a table of places. Parses one line or a whole section, and reports
//! the kind of fault of a wrong line.
#![tactic(auto)]

mod ahead;
mod counts;
mod laws;
mod line_values;
mod marks;
mod places;
mod rows;
mod sections;
mod so_far;
mod task_line;
mod tracker;
mod variables_and_groups;
mod wrong_word;

pub use ahead::{read_effect, read_fact, read_name, read_number_line};
pub use counts::{Counts, ListCount};
pub use laws::{line_number_laws, mark_laws, task_laws};
pub use line_values::LineValues;
pub use marks::{Due, FixedWord, Location, Mark, What, WrongWord};
pub use places::{Event, Move, Place, Row};
pub use sections::{ParsedOperator, ParsedRule, read_operator, read_rule};
pub use so_far::SoFar;
pub use task_line::{change_in, value_in};
pub use tracker::Tracker;
pub use variables_and_groups::{ParsedVariable, read_group, read_variable};
pub use wrong_word::{wrong_in_effect, wrong_in_fact, wrong_in_head};
