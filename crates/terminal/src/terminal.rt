//! An end that is told what to do line by line.
ghost use Rattle.std.specs.Prelude.{◌≡◌, Some, Ok};
ghost use Rattle.link.specs.Answers.{answered};
ghost use Rattle.console.specs.Text.{answer_text};
ghost use Rattle.terminal.specs.Lines.{Plays, does, effect_text};

use crate::end::End;
use console::{Answer, Command, parse};
use frame::Refusal;
use link::SealedEffect;
use script::Complaint;
use sealing::Vault;

/// An end, with its secrets and entropy, and which of its kind it is.
#[derive(Drop)]
pub struct Terminal<E: End, V> {
    pub vault: V,
    pub index: E::Index,
    pub link: E,
}

impl<E: End, V: Vault> Terminal<E, V> {
    /// Plays the line with this number.
    pub fn play_line(&mut self, number: u64, line: &[u8]) -> Answer
        ensures plays { Plays (E.hears (V.holds self.old.vault) self.old.index) (E.acts (V.holds self.old.vault) self.old.index) E.delivered number line.now (E.held self.old.link) (E.ring self.old.link) result (E.held self.new.link) (E.ring self.new.link) }
        ensures vault { self.new.vault ≡ self.old.vault }
        ensures index { self.new.index ≡ self.old.index }
    {
        match parse(line) {
            Ok(None) => Answer::Nothing,
            Ok(Some(command)) => answer::<E>(self.obey(command)),
            Err(fault) => Answer::Complaint(Complaint {
                line: number,
                fault,
            }),
        }
    }

    // What the end does for a command.
    fn obey(&mut self, command: Command) -> Result<SealedEffect, Refusal>
        ensures told { answered result (E.held self.new.link) (E.ring self.new.link) ≡ does (E.hears (V.holds self.old.vault) self.old.index) (E.acts (V.holds self.old.vault) self.old.index) command (E.held self.old.link) (E.ring self.old.link) }
        ensures vault { self.new.vault ≡ self.old.vault }
        ensures index { self.new.index ≡ self.old.index }
    {
        match command {
            Command::Hear(Some(octets)) => {
                self.link
                    .hear_bytes(&self.vault, self.index, octets.as_slice())
            }
            Command::Hear(None) => Err(Refusal::NoRow),
            Command::Act(act) => Ok(self.link.act_by_number(&self.vault, self.index, act)),
        }
    }
}

// What an end did, as it is printed.
fn answer<E: End>(outcome: Result<SealedEffect, Refusal>) -> Answer
    ensures { answer_text result ≡ effect_text E.delivered outcome }
{
    match outcome {
        Ok(effect) => Answer::Done {
            said: effect.says,
            delivered: effect.delivers.and_then(|message| E::delivery(&message)),
        },
        Err(refusal) => Answer::Refused(refusal),
    }
}
