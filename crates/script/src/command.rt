// The commands of a script.
ghost use Rattle.std.specs.Prelude.{◌≡◌, ℕ, List, ◌∷◌, map, length, codes, MatchResult, ◌≢◌};
ghost use Rattle.script.specs.Line.{Number, Part, Word, numbers_from, parts};
ghost use Rattle.script.specs.Commands.{Answered, Reads, spelling};
ghost use Rattle.script.specs.Reading.{Spells};

pub use crate::fault::Malformed;
use crate::line::{first_word, next_number, next_word, numbers};
use frame::Nonce;

/// What a line tells the network to do.
#[derive(Clone, Copy)]
pub enum Command {
    /// The gate invites the handheld.
    Invite { gate: u64, hand: u64 },
    /// The gate sends a body to the handheld.
    Send { gate: u64, hand: u64, body: u64 },
    /// The gate sends a body to all.
    Broadcast { gate: u64, body: u64 },
    /// The gate takes a new group key.
    Rotate { gate: u64 },
    /// The gate gives the handheld word of its group key.
    Rekey { gate: u64, hand: u64 },
    /// The gate is switched off and on.
    ForgetGate { gate: u64 },
    /// The handheld sends a body to the gate.
    SendUp { hand: u64, gate: u64, body: u64 },
    /// The handheld is switched off and on.
    ForgetHand { hand: u64 },
    /// The message sent as the `place`-th is heard; one to all, by the handheld.
    Hear { hand: u64, place: u64 },
    /// An invented begin reaches the handheld as from the gate, with this nonce.
    Begin { gate: u64, hand: u64, anonce: Nonce },
}

/// The forms of a line, one for each command.
#[derive(Clone, Copy)]
pub enum Form {
    Invite,
    Send,
    Broadcast,
    Rotate,
    Rekey,
    ForgetGate,
    SendUp,
    ForgetHand,
    Hear,
    Begin,
}

impl Form {
    // The numbers that end a line of this form.
    fn numbers<const N: usize>(self, rest: &[u8]) -> Result<[u64; N], Malformed<Form>>
        ensures { MatchResult result (λ ns. parts rest.now ≡ numbers_from 0 N ns)
            (λ e. (e ≡ Malformed.Expected self) × ((ns : List ℕ) → length ns ≡ N → parts rest.now ≢ map Number ns)) }
    {
        numbers(rest).ok_or(Malformed::Expected(self))
    }
}

// The words of a script that are not numbers.
#[derive(Clone, Copy)]
enum Keyword {
    Hand,
    Hears,
    Begins,
    Invites,
    Sends,
    All,
    Turns,
    Words,
    Forgets,
}

impl TryFrom<&[u8]> for Keyword {
    type Error = Malformed<Form>;

    ghost try_from_gives = { λ word r. Spells spelling word.now r };

    fn try_from(word: &[u8]) -> Result<Keyword, Malformed<Form>> {
        match word {
            b"hand" => Ok(Keyword::Hand),
            b"hears" => Ok(Keyword::Hears),
            b"begins" => Ok(Keyword::Begins),
            b"invites" => Ok(Keyword::Invites),
            b"sends" => Ok(Keyword::Sends),
            b"all" => Ok(Keyword::All),
            b"turns" => Ok(Keyword::Turns),
            b"words" => Ok(Keyword::Words),
            b"forgets" => Ok(Keyword::Forgets),
            _ => Err(Malformed::NotACommand),
        }
    }
}

// The keyword that `line` begins with and what stands after it.
fn next_keyword(line: &[u8]) -> Result<(Keyword, &[u8]), Malformed<Form>>
    ensures { MatchResult result (λ p. parts line.now ≡ Word (spelling p.0) ∷ parts p.1.now)
        (λ e. (e ≡ Malformed.NotACommand) × ((k : Keyword) (ps : List Part) → parts line.now ≢ Word (spelling k) ∷ ps)) }
{
    let (word, rest) = next_word(line).ok_or(Malformed::NotACommand)?;
    let keyword = Keyword::try_from(word)?;
    Ok((keyword, rest))
}

// What gate `gate` is told to do.
fn of_gate(gate: u64, line: &[u8]) -> Result<Command, Malformed<Form>>
    ensures { Answered (Number gate ∷ parts line.now) result }
{
    let (keyword, rest) = next_keyword(line)?;
    match keyword {
        Keyword::Invites => {
            let [hand] = Form::Invite.numbers::<1>(rest)?;
            Ok(Command::Invite { gate, hand })
        }
        Keyword::Sends => {
            let [hand, body] = Form::Send.numbers::<2>(rest)?;
            Ok(Command::Send { gate, hand, body })
        }
        Keyword::All => {
            let [body] = Form::Broadcast.numbers::<1>(rest)?;
            Ok(Command::Broadcast { gate, body })
        }
        Keyword::Turns => {
            Form::Rotate.numbers::<0>(rest)?;
            Ok(Command::Rotate { gate })
        }
        Keyword::Words => {
            let [hand] = Form::Rekey.numbers::<1>(rest)?;
            Ok(Command::Rekey { gate, hand })
        }
        Keyword::Forgets => {
            Form::ForgetGate.numbers::<0>(rest)?;
            Ok(Command::ForgetGate { gate })
        }
        Keyword::Hand | Keyword::Hears | Keyword::Begins => Err(Malformed::NotACommand),
    }
}

// What handheld `hand` is told to do.
fn of_hand(hand: u64, line: &[u8]) -> Result<Command, Malformed<Form>>
    ensures { Answered (Word (codes "hand") ∷ Number hand ∷ parts line.now) result }
{
    let (keyword, rest) = next_keyword(line)?;
    match keyword {
        Keyword::Sends => {
            let [gate, body] = Form::SendUp.numbers::<2>(rest)?;
            Ok(Command::SendUp { hand, gate, body })
        }
        Keyword::Forgets => {
            Form::ForgetHand.numbers::<0>(rest)?;
            Ok(Command::ForgetHand { hand })
        }
        Keyword::Hand
        | Keyword::Hears
        | Keyword::Begins
        | Keyword::Invites
        | Keyword::All
        | Keyword::Turns
        | Keyword::Words => Err(Malformed::NotACommand),
    }
}

// The command that `line` has the words of.
fn command_of(line: &[u8]) -> Result<Command, Malformed<Form>>
    ensures { Answered (parts line.now) result }
{
    if let Some((gate, rest)) = next_number(line) {
        return of_gate(gate, rest);
    }
    let (keyword, rest) = next_keyword(line)?;
    match keyword {
        Keyword::Hand => {
            let (hand, rest) = next_number(rest).ok_or(Malformed::NotACommand)?;
            of_hand(hand, rest)
        }
        Keyword::Hears => {
            let [hand, place] = Form::Hear.numbers::<2>(rest)?;
            Ok(Command::Hear { hand, place })
        }
        Keyword::Begins => {
            let [gate, hand, kind, node, index] = Form::Begin.numbers::<5>(rest)?;
            let anonce = Nonce { kind, node, index };
            Ok(Command::Begin { gate, hand, anonce })
        }
        Keyword::Invites
        | Keyword::Sends
        | Keyword::All
        | Keyword::Turns
        | Keyword::Words
        | Keyword::Forgets => Err(Malformed::NotACommand),
    }
}

/// What a line says: a command, or nothing if it is blank or a comment.
pub fn parse(line: &[u8]) -> Result<Option<Command>, Malformed<Form>>
    ensures { Reads line.now result }
{
    if first_word(line).is_none() {
        return Ok(None);
    }
    command_of(line).map(Some)
}
