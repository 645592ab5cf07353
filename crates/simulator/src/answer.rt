//! What is answered to a line of the script.
use crate::log::Played;
use script::{Complaint, Form};

/// What a line came to. Where it is neither `Nothing` nor `Played`, nothing has moved.
#[derive(Clone, Copy)]
pub enum Answer {
    /// The line is blank or a comment.
    Nothing,
    Played(Played),
    /// The line is no command.
    Complaint(Complaint<Form>),
    /// The line with this number names a gate or a handheld that is not there.
    Absent { line: u64 },
    /// There is no place for another message.
    Full,
    NoMemory,
}
