//! What an end does of itself.
ghost use Rattle.std.specs.Prelude.{◌≡◌};
ghost use Rattle.protocol.specs.Calls.{gate_act_of, hand_act_of};

#[derive(Clone, Copy)]
pub enum HandAct {
    SendUp { gate: u64, body: u64 },
    ForgetHand,
}

#[derive(Clone, Copy)]
pub enum GateAct {
    Invite { hand: u64 },
    SendDown { hand: u64, body: u64 },
    Broadcast { body: u64 },
    Rotate,
    Rekey { hand: u64 },
    ForgetGate,
}

/// An act by its number, as a caller in another language or a line of text has it; `peer` is the gate or the handheld
/// that it is towards.
#[derive(Clone, Copy, PartialEq, Eq)]
pub struct NumberedAct {
    pub kind: u64,
    pub peer: u64,
    pub body: u64,
}

impl From<NumberedAct> for HandAct {
    ghost from_gives = { λ n a. a ≡ hand_act_of n.kind n.peer n.body };

    /// 0 sends `body` to the gate, 1 and above forgets.
    fn from(act: NumberedAct) -> HandAct {
        let NumberedAct { kind, peer, body } = act;
        match kind {
            0 => HandAct::SendUp { gate: peer, body },
            _ => HandAct::ForgetHand,
        }
    }
}

impl From<NumberedAct> for GateAct {
    ghost from_gives = { λ n a. a ≡ gate_act_of n.kind n.peer n.body };

    /// 0 invites the handheld, 1 sends it `body`, 2 sends `body` to all, 3 takes a new group key, 4 gives the handheld
    /// word of it, 5 and above forgets.
    fn from(act: NumberedAct) -> GateAct {
        let NumberedAct { kind, peer, body } = act;
        match kind {
            0 => GateAct::Invite { hand: peer },
            1 => GateAct::SendDown { hand: peer, body },
            2 => GateAct::Broadcast { body },
            3 => GateAct::Rotate,
            4 => GateAct::Rekey { hand: peer },
            _ => GateAct::ForgetGate,
        }
    }
}
