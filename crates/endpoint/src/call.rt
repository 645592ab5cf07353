//! What a call of an end answers, and how what is said and delivered is written.
ghost use Rattle.std.specs.Prelude.{◌≡◌, Bool, length};
ghost use Rattle.frame.specs.declared.message.Message.{Message};
ghost use Rattle.frame.specs.Row.{padded};
ghost use Rattle.protocol.specs.Calls.{is_tagged, row_of, verdict_on};
ghost use Rattle.endpoint.specs.Effects.{listed, code_answered, effect_answered, Judges, Writes};

use crate::effect::Effect;
use frame::{Message, ROW, Refusal};

/// A call's answer: 0 or the refusal's number, and the lengths of the rows said and delivered.
#[derive(Clone, Copy)]
pub struct Heard {
    pub code: u32,
    pub says: u32,
    pub takes: u32,
}

impl Heard {
    /// The answer in numbers, as callers in other languages have it: of a refused row noughts are written.
    pub fn of(
        answer: Result<Effect, Refusal>,
        says: &mut [u64; ROW],
        takes: &mut [u64; ROW],
    ) -> Heard
        ensures code { result.code ≡ code_answered answer }
        ensures said { Writes (effect_answered answer).says says.new result.says }
        ensures delivered { Writes (effect_answered answer).delivers takes.new result.takes }
    {
        let (code, effect) = match answer {
            Ok(effect) => (0, effect),
            Err(refusal) => (u32::from(refusal), Effect::nothing()),
        };
        Heard {
            code,
            says: write(effect.says, says),
            takes: write(effect.delivers, takes),
        }
    }
}

/// The row of what is said or delivered, noughts behind it, and its length.
pub fn write(message: Option<Message>, out: &mut [u64; ROW]) -> u32
    ensures row { out.new ≡ padded 12 (row_of (listed message)) }
    ensures len { result ≡ length (row_of (listed message)) }
{
    match message {
        Some(message) => {
            let row = message.row();
            *out = row.padded();
            row.len() as u32
        }
        None => {
            *out = [0; ROW];
            0
        }
    }
}

/// The end that messages are for.
pub trait Addressee {
    ghost addressed: { Self → Message → Bool };

    fn is_for(&self, message: &Message) -> bool
        ensures { result ≡ addressed self.now message.now };
}

/// The message of a row, or the first refusal that applies.
#[tactic(auto, using(crate::proofs::Reading::read_is_small))]
pub fn check<A: Addressee>(end: &A, row: &[u64], genuine: bool) -> Result<Message, Refusal>
    ensures { Judges (verdict_on (A.Addressee.addressed end.now) row.now genuine) row.now result }
{
    let message = Message::read(row)?;
    if !end.is_for(&message) {
        return Err(Refusal::NotForThisEnd);
    }
    if is_tagged(&message) && !genuine {
        return Err(Refusal::WrongTag);
    }
    Ok(message)
}

/// All but a begin want a right tag.
fn is_tagged(message: &Message) -> bool
    ensures { result ≡ is_tagged message.now }
{
    match message {
        Message::Begin { .. } => false,
        Message::Reply { .. }
        | Message::Take { .. }
        | Message::Taken { .. }
        | Message::Renew { .. }
        | Message::Load { .. }
        | Message::All { .. } => true,
    }
}
