//! What a program prints.
ghost use Rattle.std.specs.Prelude.{Some};
ghost use Rattle.console.specs.Text.{answer_text, hand_on_text, line_of, say_text, usage_of};

use crate::answer::Answer;
use crate::command::Form;
use crate::delivery::Delivery;
use crate::hex::Hex;
use octets::Octets;
use script::LineForm;
use std::fmt;

impl LineForm for Form {
    ghost usage_text = { usage_of };

    fn usage(self) -> &'static str {
        match self {
            Form::Hear => "hear HEX",
            Form::Act => "act K N BODY",
        }
    }
}

impl fmt::Display for Delivery {
    ghost output = { λ delivery. Some (hand_on_text delivery) };

    fn fmt<W: fmt::Write>(&self, f: &mut fmt::Formatter<W>) -> fmt::Result {
        let Delivery { peer, body } = *self;
        write!(f, "hand on {peer} {body}")
    }
}

// What an end says.
#[derive(Clone, Copy)]
struct Said(Octets);

impl fmt::Display for Said {
    ghost output = { λ said. Some (say_text said.0) };

    fn fmt<W: fmt::Write>(&self, f: &mut fmt::Formatter<W>) -> fmt::Result {
        let hex = Hex(self.0.as_slice());
        write!(f, "say {hex}")
    }
}

// The line of a text, if there is one.
#[derive(Clone, Copy)]
struct Line<T>(Option<T>);

impl<T: fmt::Display> fmt::Display for Line<T> {
    ghost output = { λ line. line_of T.output line.0 };

    fn fmt<W: fmt::Write>(&self, f: &mut fmt::Formatter<W>) -> fmt::Result {
        match &self.0 {
            None => Ok(()),
            Some(text) => write!(f, "{text}\n"),
        }
    }
}

impl fmt::Display for Answer {
    ghost output = { λ answer. Some (answer_text answer) };

    fn fmt<W: fmt::Write>(&self, f: &mut fmt::Formatter<W>) -> fmt::Result {
        match *self {
            Answer::Nothing => Ok(()),
            Answer::Refused(refusal) => {
                let number = u32::from(refusal);
                write!(f, "refused {number}\n")
            }
            Answer::Done { said, delivered } => {
                let said = Line(said.map(Said));
                let delivered = Line(delivered);
                write!(f, "{said}{delivered}")
            }
            Answer::Complaint(complaint) => write!(f, "{complaint}\n"),
        }
    }
}
