//! A line of the script, read and played.
ghost use Rattle.std.specs.Prelude.{◌≡◌};
ghost use Rattle.promise.specs.Reach.{Kept};
ghost use Rattle.simulator.specs.Model.{world_of};
ghost use Rattle.simulator.specs.Answers.{PlaysLine, answer_of};

use crate::answer::Answer;
use crate::log::{Played, Unplayed};
use crate::simulator::Simulator;
use script::{Complaint, parse};

impl Answer {
    fn of(line: u64, played: Result<Played, Unplayed>) -> Answer
        ensures { result ≡ answer_of line played }
    {
        match played {
            Ok(played) => Answer::Played(played),
            Err(Unplayed::Absent) => Answer::Absent { line },
            Err(Unplayed::Full) => Answer::Full,
            Err(Unplayed::NoMemory) => Answer::NoMemory,
        }
    }
}

impl Simulator {
    /// Plays the line with this number.
    pub fn play_line(&mut self, number: u64, line: &[u8]) -> Answer
        ensures plays { PlaysLine number line.now result (world_of self.old.network) (world_of self.new.network) }
        ensures kept { Kept (world_of self.new.network) }
    {
        match parse(line) {
            Err(fault) => Answer::Complaint(Complaint {
                line: number,
                fault,
            }),
            Ok(None) => Answer::Nothing,
            Ok(Some(command)) => Answer::of(number, self.play(command)),
        }
    }
}
