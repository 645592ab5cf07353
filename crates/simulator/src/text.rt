//! What is printed of an answer.
ghost use Rattle.std.specs.Prelude.{Some};
ghost use Rattle.simulator.specs.Text.{answer_text, played_text};

use crate::answer::Answer;
use crate::log::Played;
use script::{HandedOn, Row, Sent};
use std::fmt;

impl fmt::Display for Played {
    ghost output = { λ p. Some (played_text p) };

    /// A line for the message that was sent and one for the message that was delivered, where there are such.
    fn fmt<W: fmt::Write>(&self, f: &mut fmt::Formatter<W>) -> fmt::Result {
        if let Some(line) = &self.sent {
            let row = line.message.row();
            let sent = Sent {
                place: self.place,
                row: Row(row.as_slice()),
            };
            write!(f, "{sent}\n")?;
        }
        if let Some(line) = &self.delivered {
            let row = line.message.row();
            let handed_on = HandedOn {
                node: line.node,
                row: Row(row.as_slice()),
            };
            write!(f, "{handed_on}\n")?;
        }
        Ok(())
    }
}

impl fmt::Display for Answer {
    ghost output = { λ a. Some (answer_text a) };

    fn fmt<W: fmt::Write>(&self, f: &mut fmt::Formatter<W>) -> fmt::Result {
        match *self {
            Answer::Nothing => Ok(()),
            Answer::Played(played) => write!(f, "{played}"),
            Answer::Complaint(complaint) => write!(f, "{complaint}\n"),
            Answer::Absent { line } => write!(f, "line {line}: no such gate or handheld\n"),
            Answer::Full => write!(f, "full\n"),
            Answer::NoMemory => write!(f, "out of memory\n"),
        }
    }
}
