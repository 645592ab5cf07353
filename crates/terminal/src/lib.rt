//! The programs of the two ends, line by line: a line is read, the end hears or acts, and its answer is written.

#![tactic(auto)]

mod end;
mod gate;
mod hand;
mod lines;
mod terminal;

pub use end::End;
pub use gate::GateTerminal;
pub use hand::HandTerminal;
pub use lines::serve;
pub use terminal::Terminal;
