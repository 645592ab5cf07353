//! Ends of both kinds and the air between, played line by line.

#![tactic(auto)]

mod answer;
mod commands;
mod line;
mod log;
mod messages;
mod network;
mod play;
mod simulator;
mod start;
mod steps;
mod text;

pub use answer::Answer;
pub use log::{Line, Played, Unplayed};
pub use simulator::Simulator;
