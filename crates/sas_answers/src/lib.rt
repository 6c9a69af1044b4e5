//! The answers about a task or a plan in memory, and how they are written: how a run ends, a short text, a long one in pieces, and lines of
//! reasons. No file is read.
#![tactic(auto)]

mod answer;
mod ending;
mod laws;
mod layers;
mod line;
mod names;
mod pieces;
mod placing;
mod plans;
mod pushing;
mod shown;
mod sink;
mod wording;
mod words;

pub use answer::Answer;
pub use ending::{Status, ToolFault};
pub use laws::line_laws;
pub use layers::{accept_layers, refuse_layers};
pub use line::Line;
pub use names::{NameSource, given_by, operator_name, set_by, value_name};
pub use pieces::Pieces;
pub use plans::{accept_plan, answer_fault, answer_number_fault, refuse_start};
pub use pushing::{push_lines, write_reasons};
pub use shown::{show, show_name};
pub use sink::Sink;
pub use words::{NumberedLine, Word, Words};
