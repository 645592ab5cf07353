//! The calls of a gate.
ghost use Rattle.std.specs.Prelude.{◌≡◌, ◌≤◌};
ghost use Rattle.protocol.specs.Held.{GateState, new_gate};
ghost use Rattle.protocol.specs.Calls.{gate_does, gate_verdict, gate_hears_row, gate_hearing, gate_acting};
ghost use Rattle.endpoint.specs.Effects.{out_of, Judges, HearsRow, hearing_of, acting_of};

use endpoint::{Effect, Heard, write};
use frame::{Message, ROW, Refusal};
use protocol::{GateAct, NumberedAct};

/// A gate, by what it holds.
pub trait Post {
    ghost state: { Self → GateState };

    /// Nothing is held yet, for so many handhelds.
    fn fresh(stations: u16) -> Self
        requires { stations ≤ 512 }
        ensures { state result ≡ new_gate stations };

    /// The message of a row, or the first refusal that applies: nothing is done yet.
    fn judge(&self, g: u8, s: u16, row: &[u64], genuine: bool) -> Result<Message, Refusal>
        ensures { Judges (gate_verdict g s row.now genuine (state self.now)) row.now result };

    /// Gate `g`, where there are `s` handhelds, hears a row; `genuine` says whether its tag was right.
    fn hear_row(&mut self, g: u8, s: u16, row: &[u64], genuine: bool) -> Result<Effect, Refusal>
        ensures { HearsRow (gate_verdict g s row.now genuine (state self.old)) (gate_hears_row g s row.now genuine (state self.old)) result (state self.new) };

    /// What it does of itself; towards handhelds beyond those that the caller counts, nothing.
    fn do_act(&mut self, g: u8, hands: u16, act: GateAct) -> Effect
        ensures { out_of result (state self.new) ≡ gate_does g hands act (state self.old) };

    /// The same as `hear_row` in numbers: `says` and `takes` get the rows said and delivered.
    #[tactic(auto, using(endpoint::proofs::Calls::heard), unfolding(protocol::specs::Calls::gate_hearing))]
    fn hear(
        &mut self,
        g: u8,
        s: u16,
        message: &[u64],
        genuine: bool,
        says: &mut [u64; ROW],
        takes: &mut [u64; ROW],
    ) -> Heard
        ensures { hearing_of result (state self.new) says.new takes.new ≡ gate_hearing g s message.now genuine (state self.old) }
    {
        Heard::of(self.hear_row(g, s, message, genuine), says, takes)
    }

    /// Gate `g`, where there are `stations` handhelds, does something of itself, by the act's number: 0 invites
    /// handheld `s`, 1 sends it `body`, 2 sends `body` to all, 3 takes a new group key, 4 gives handheld `s` word of
    /// it, 5 and above forgets. `says` gets the row said, and the answer is its length.
    #[tactic(auto, using(endpoint::proofs::Calls::acted, protocol::proofs::Quiet::gate_delivers_nothing), unfolding(protocol::specs::Calls::gate_acting))]
    fn act(
        &mut self,
        g: u8,
        stations: u16,
        kind: u8,
        s: u16,
        body: u64,
        says: &mut [u64; ROW],
    ) -> u32
        ensures { acting_of result (state self.new) says.new ≡ gate_acting g stations kind s body (state self.old) }
    {
        let act = NumberedAct {
            kind: kind as u64,
            peer: s as u64,
            body,
        };
        let effect = self.do_act(g, stations, act.into());
        write(effect.says, says)
    }
}
