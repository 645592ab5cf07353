//! The lines that a program reads.
ghost use Rattle.std.specs.Prelude.{◌≡◌};
ghost use Rattle.script.specs.Line.{words};
ghost use Rattle.script.specs.Reading.{Spells};
ghost use Rattle.console.specs.Commands.{Completed, Reads, spelling};

use crate::hex::from_hex;
use octets::Octets;
use protocol::NumberedAct;
use script::line::{next_word, numbers};
use script::{Malformed, first_word};

/// What a line tells an end to do.
#[derive(Clone, Copy)]
pub enum Command {
    /// To hear these bytes, or, where there are none, what can be no row: no even run of hex digits, or a longer one
    /// than any message has.
    Hear(Option<Octets>),
    /// To act, by number.
    Act(NumberedAct),
}

/// The forms of a line, by its first word.
#[derive(Clone, Copy)]
pub enum Form {
    Hear,
    Act,
}

impl TryFrom<&[u8]> for Form {
    type Error = Malformed<Form>;

    ghost try_from_gives = { λ word r. Spells spelling word.now r };

    fn try_from(word: &[u8]) -> Result<Form, Malformed<Form>> {
        match word {
            b"hear" => Ok(Form::Hear),
            b"act" => Ok(Form::Act),
            _ => Err(Malformed::NotACommand),
        }
    }
}

// What an end is told to hear.
fn hear(line: &[u8]) -> Result<Command, Malformed<Form>>
    ensures { Completed Form.Hear (words line.now) result }
{
    let Some((digits, rest)) = next_word(line) else {
        return Ok(Command::Hear(None));
    };
    if next_word(rest).is_some() {
        return Err(Malformed::Expected(Form::Hear));
    }
    Ok(Command::Hear(from_hex(digits)))
}

// What an end is told to do of itself.
fn act(line: &[u8]) -> Result<Command, Malformed<Form>>
    ensures { Completed Form.Act (words line.now) result }
{
    let [kind, peer, body] = numbers::<3>(line).ok_or(Malformed::Expected(Form::Act))?;
    Ok(Command::Act(NumberedAct { kind, peer, body }))
}

/// What a line says: a command, or nothing if it is blank or a comment.
pub fn parse(line: &[u8]) -> Result<Option<Command>, Malformed<Form>>
    ensures { Reads (words line.now) result }
{
    let Some((word, rest)) = first_word(line) else {
        return Ok(None);
    };
    let command = match Form::try_from(word)? {
        Form::Hear => hear(rest)?,
        Form::Act => act(rest)?,
    };
    Ok(Some(command))
}
