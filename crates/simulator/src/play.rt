//! A command, played whole or not at all.
ghost use Rattle.std.specs.Prelude.{◌≡◌, Ok, Err};
ghost use Rattle.promise.specs.Reach.{Kept};
ghost use Rattle.simulator.specs.Model.{HasRoom, world_of};
ghost use Rattle.simulator.specs.Play.{Plays, may_say, overfull};

use crate::log::{Played, Unplayed};
use crate::messages::is_answered;
use crate::network::Network;
use crate::simulator::Simulator;
use script::Command;

/// The most messages that are sent.
const MESSAGES: usize = 10_000;

impl Network {
    /// Whether something may be said for the command.
    fn may_say(&self, command: Command) -> bool
        ensures { result ≡ may_say command (world_of self.now) }
    {
        match command {
            Command::Rotate { .. } | Command::ForgetGate { .. } | Command::ForgetHand { .. } => {
                false
            }
            Command::Hear { place, .. } => self
                .message(place)
                .is_some_and(|message| is_answered(&message)),
            Command::Invite { .. }
            | Command::Send { .. }
            | Command::Broadcast { .. }
            | Command::Rekey { .. }
            | Command::SendUp { .. }
            | Command::Begin { .. } => true,
        }
    }

    #[tactic(auto, using(crate::proofs::OneCall::entries_length))]
    fn is_full_for(&self, command: Command) -> bool
        ensures { result ≡ overfull command (world_of self.now) }
    {
        self.sent.len() >= MESSAGES && self.may_say(command)
    }

    /// Room for one message more, sent and delivered.
    fn make_room(&mut self) -> Result<(), Unplayed>
        ensures world { world_of self.new ≡ world_of self.old }
        ensures room { elim result [ Ok _ ↦ HasRoom self.new | Err e ↦ e ≡ Unplayed.NoMemory ] }
    {
        if self.sent.reserve(1).is_err() || self.delivered.reserve(1).is_err() {
            return Err(Unplayed::NoMemory);
        }
        Ok(())
    }

    /// Room first, then the step, so that where memory is wanting nothing has moved.
    pub(crate) fn play(&mut self, command: Command) -> Result<Played, Unplayed>
        ensures { Plays result command (world_of self.old) (world_of self.new) }
    {
        if self.is_full_for(command) {
            return Err(Unplayed::Full);
        }
        self.make_room()?;
        self.step(command).ok_or(Unplayed::Absent)
    }
}

impl Simulator {
    /// Plays a command, and answers exactly what was sent and delivered for it.
    #[tactic(auto, using(crate::proofs::Mute::few_played, crate::proofs::Reaching::reached_played))]
    pub fn play(&mut self, command: Command) -> Result<Played, Unplayed>
        ensures plays { Plays result command (world_of self.old.network) (world_of self.new.network) }
        ensures kept { Kept (world_of self.new.network) }
    {
        self.network.play(command)
    }
}
