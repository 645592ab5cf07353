//! What a line is answered.
use crate::command::Form;
use crate::delivery::Delivery;
use frame::Refusal;
use octets::Octets;
use script::Complaint;

/// What a line is answered: all but a complaint on standard output.
#[derive(Clone, Copy)]
pub enum Answer {
    /// The line says nothing.
    Nothing,
    /// What was heard is refused.
    Refused(Refusal),
    /// What the end says and what it delivers, if anything.
    Done {
        said: Option<Octets>,
        delivered: Option<Delivery>,
    },
    /// The line is no command, and nothing has moved.
    Complaint(Complaint<Form>),
}
