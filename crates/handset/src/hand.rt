//! The calls of a handheld.
ghost use Rattle.std.specs.Prelude.{◌≡◌};
ghost use Rattle.protocol.specs.Held.{HandState, new_hand};
ghost use Rattle.protocol.specs.Calls.{hand_does, hand_verdict, hand_hears_row, hand_hearing, hand_acting};
ghost use Rattle.endpoint.specs.Effects.{out_of, Judges, HearsRow, hearing_of, acting_of};

use endpoint::{Effect, Heard, write};
use frame::{Message, ROW, Refusal};
use protocol::{HandAct, NumberedAct};

/// A handheld, by what it holds.
pub trait Hand {
    ghost state: { Self → HandState };

    /// Nothing is held yet, for so many gates.
    fn fresh(gates: u8) -> Self
        ensures { state result ≡ new_hand gates };

    /// The message of a row, or the first refusal that applies: nothing is done yet.
    fn judge(&self, g: u8, s: u16, row: &[u64], genuine: bool) -> Result<Message, Refusal>
        ensures { Judges (hand_verdict g s row.now genuine (state self.now)) row.now result };

    /// Handheld `s`, where there are `g` gates, hears a row; `genuine` says whether its tag was right.
    fn hear_row(&mut self, g: u8, s: u16, row: &[u64], genuine: bool) -> Result<Effect, Refusal>
        ensures { HearsRow (hand_verdict g s row.now genuine (state self.old)) (hand_hears_row g s row.now genuine (state self.old)) result (state self.new) };

    /// What it does of itself; towards gates beyond those that the caller counts, nothing.
    fn do_act(&mut self, gates: u8, act: HandAct) -> Effect
        ensures { out_of result (state self.new) ≡ hand_does gates act (state self.old) };

    /// The same as `hear_row` in numbers: `says` and `takes` get the rows said and delivered.
    #[tactic(auto, using(endpoint::proofs::Calls::heard), unfolding(protocol::specs::Calls::hand_hearing))]
    fn hear(
        &mut self,
        g: u8,
        s: u16,
        message: &[u64],
        genuine: bool,
        says: &mut [u64; ROW],
        takes: &mut [u64; ROW],
    ) -> Heard
        ensures { hearing_of result (state self.new) says.new takes.new ≡ hand_hearing g s message.now genuine (state self.old) }
    {
        Heard::of(self.hear_row(g, s, message, genuine), says, takes)
    }

    /// Handheld `s`, where there are `gates` gates, does something of itself, by the act's number: 0 sends `body` to
    /// gate `g`, 1 and above forgets. `says` gets the row said, and the answer is its length.
    #[tactic(auto, using(endpoint::proofs::Calls::acted, protocol::proofs::Quiet::hand_delivers_nothing), unfolding(protocol::specs::Calls::hand_acting))]
    fn act(&mut self, gates: u8, _s: u16, kind: u8, g: u8, body: u64, says: &mut [u64; ROW]) -> u32
        ensures { acting_of result (state self.new) says.new ≡ hand_acting gates kind g body (state self.old) }
    {
        let act = NumberedAct {
            kind: kind as u64,
            peer: g as u64,
            body,
        };
        let effect = self.do_act(gates, act.into());
        write(effect.says, says)
    }
}
