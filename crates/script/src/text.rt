// What a play of the script prints.
ghost use Rattle.std.specs.Prelude.{Some};
ghost use Rattle.script.specs.Text.{handed_on_text, name_of, row_text, sent_text, usage_of};

use crate::command::Form;
pub use crate::fault::Complaint;
use crate::fault::LineForm;
use frame::Node;
use std::fmt;

/// An end, as the lines of a script name it.
#[derive(Clone, Copy)]
pub struct Name(pub Node);

impl fmt::Display for Name {
    ghost output = { λ name. Some (name_of name.0) };

    fn fmt<W: fmt::Write>(&self, f: &mut fmt::Formatter<W>) -> fmt::Result {
        match self.0 {
            Node::Gate(gate) => write!(f, "{gate}"),
            Node::Hand(hand) => write!(f, "hand {hand}"),
        }
    }
}

impl LineForm for Form {
    ghost usage_text = { usage_of };

    fn usage(self) -> &'static str {
        match self {
            Form::Invite => "GATE invites HAND",
            Form::Send => "GATE sends HAND BODY",
            Form::Broadcast => "GATE all BODY",
            Form::Rotate => "GATE turns",
            Form::Rekey => "GATE words HAND",
            Form::ForgetGate => "GATE forgets",
            Form::SendUp => "hand HAND sends GATE BODY",
            Form::ForgetHand => "hand HAND forgets",
            Form::Hear => "hears HAND PLACE",
            Form::Begin => "begins GATE HAND KIND NODE INDEX",
        }
    }
}

/// The numbers of a message, each after a space.
#[derive(Clone, Copy)]
pub struct Row<'a>(pub &'a [u64]);

impl fmt::Display for Row<'_> {
    ghost output = { λ row. Some (row_text row.0.now) };

    fn fmt<W: fmt::Write>(&self, f: &mut fmt::Formatter<W>) -> fmt::Result {
        for n in self.0 {
            write!(f, " {n}")?;
        }
        Ok(())
    }
}

/// A message that was sent, the `place`-th of all.
#[derive(Clone, Copy)]
pub struct Sent<'a> {
    pub place: u64,
    pub row: Row<'a>,
}

impl fmt::Display for Sent<'_> {
    ghost output = { λ sent. Some (sent_text sent.place sent.row.0.now) };

    fn fmt<W: fmt::Write>(&self, f: &mut fmt::Formatter<W>) -> fmt::Result {
        let Sent { place, row } = *self;
        write!(f, "sent {place}{row}")
    }
}

/// A message that an end hands on.
#[derive(Clone, Copy)]
pub struct HandedOn<'a> {
    pub node: Node,
    pub row: Row<'a>,
}

impl fmt::Display for HandedOn<'_> {
    ghost output = { λ handed. Some (handed_on_text handed.node handed.row.0.now) };

    fn fmt<W: fmt::Write>(&self, f: &mut fmt::Formatter<W>) -> fmt::Result {
        let HandedOn { node, row } = *self;
        let name = Name(node);
        write!(f, "{name} hands on{row}")
    }
}
