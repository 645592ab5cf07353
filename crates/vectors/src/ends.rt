//! The seven cases, played by the real ends: gate 0 with one handheld, handheld 0 with one gate.
use endpoint::{Effect, Heard};
use frame::{Direction, Message, Nonce, Pair, ROW};
use gateway::{Gateway, Post};
use handset::{Hand, Handset};
use protocol::{GateAct, HandAct};
use std::test::Fail;

const fn pair(m: u64, n: u64) -> Pair {
    Pair {
        gate: 0,
        hand: 0,
        anonce: Nonce {
            kind: 0,
            node: 0,
            index: m,
        },
        snonce: Nonce {
            kind: 1,
            node: 0,
            index: n,
        },
    }
}

fn begin(m: u64) -> Message {
    Message::Begin {
        gate: 0,
        hand: 0,
        anonce: Nonce {
            kind: 0,
            node: 0,
            index: m,
        },
    }
}

fn take(group: u64, counter: u64, pair: Pair) -> Message {
    Message::Take {
        group,
        counter,
        pair,
    }
}

fn load(direction: Direction, counter: u64, body: u64, pair: Pair) -> Message {
    Message::Load {
        direction,
        counter,
        body,
        pair,
    }
}

fn all(group: u64, counter: u64, body: u64) -> Message {
    Message::All {
        gate: 0,
        group,
        counter,
        body,
    }
}

/// One gate, one handheld; and both once more, which do and hear the same by the calls in numbers.
#[derive(Drop)]
struct Ends {
    gate: Gateway,
    hand: Handset,
    numbered_gate: Gateway,
    numbered_hand: Handset,
}

impl Ends {
    fn new() -> Ends {
        Ends {
            gate: Gateway::new(1),
            hand: Handset::new(1),
            numbered_gate: Gateway::new(1),
            numbered_hand: Handset::new(1),
        }
    }

    /// What the gate does of itself says just this.
    fn gate_acts(&mut self, act: GateAct, says: Option<Message>) -> Result<(), Fail> {
        let effect = self.gate.do_act(0, 1, act);
        let (kind, body) = match act {
            GateAct::Invite { .. } => (0, 0),
            GateAct::SendDown { body, .. } => (1, body),
            GateAct::Broadcast { body } => (2, body),
            GateAct::Rotate => (3, 0),
            GateAct::Rekey { .. } => (4, 0),
            GateAct::ForgetGate => (5, 0),
        };
        let mut row = [7; ROW];
        let _ = self.numbered_gate.act(0, 1, kind, 0, body, &mut row);
        check(effect == said(says) && row == written(says))
    }

    fn hand_acts(&mut self, act: HandAct, says: Option<Message>) -> Result<(), Fail> {
        let effect = self.hand.do_act(1, act);
        let (kind, body) = match act {
            HandAct::SendUp { body, .. } => (0, body),
            HandAct::ForgetHand => (1, 0),
        };
        let mut row = [7; ROW];
        let _ = self.numbered_hand.act(1, 0, kind, 0, body, &mut row);
        check(effect == said(says) && row == written(says))
    }

    /// What the gate hears is not refused, is answered by just this row, and delivers nothing.
    fn gate_hears(&mut self, message: Message, says: Option<Message>) -> Result<(), Fail> {
        let (mut said_row, mut taken) = ([7; ROW], [7; ROW]);
        let row = message.row();
        let effect = self.gate.hear_row(0, 1, row.as_slice(), true).ok();
        let heard = self
            .numbered_gate
            .hear(0, 1, row.as_slice(), true, &mut said_row, &mut taken);
        check(effect == Some(said(says)))?;
        check(heard.code == 0 && said_row == written(says) && taken == written(None))
    }

    fn hand_hears(&mut self, message: Message, says: Option<Message>) -> Result<(), Fail> {
        self.hand_answers(message, says, None)
    }

    /// The handheld hears a frame, which it delivers or not.
    fn delivers(&mut self, frame: Message, delivered: bool) -> Result<(), Fail> {
        self.hand_answers(frame, None, delivered.then_some(frame))
    }

    /// What the handheld hears is not refused, and just these rows are said and delivered.
    fn hand_answers(
        &mut self,
        message: Message,
        says: Option<Message>,
        delivers: Option<Message>,
    ) -> Result<(), Fail> {
        let (mut said_row, mut taken) = ([7; ROW], [7; ROW]);
        let row = message.row();
        let effect = self.hand.hear_row(1, 0, row.as_slice(), true).ok();
        let heard = self
            .numbered_hand
            .hear(1, 0, row.as_slice(), true, &mut said_row, &mut taken);
        check(effect == Some(Effect { says, delivers }))?;
        check(heard.code == 0 && said_row == written(says) && taken == written(delivers))
    }

    /// The whole handshake to a pair, under this group key and counter.
    fn meet(&mut self, m: u64, n: u64, group: u64, counter: u64) -> Result<(), Fail> {
        let p = pair(m, n);
        self.gate_acts(GateAct::Invite { hand: 0 }, Some(begin(m)))?;
        self.hand_hears(begin(m), Some(Message::Reply { pair: p }))?;
        self.gate_hears(Message::Reply { pair: p }, Some(take(group, counter, p)))?;
        self.hand_hears(take(group, counter, p), Some(Message::Taken { pair: p }))?;
        self.gate_hears(Message::Taken { pair: p }, None)
    }
}

/// What an end answers is what the case has.
fn check(holds: bool) -> Result<(), Fail> {
    holds.then_some(()).ok_or("an end answers otherwise")?;
    Ok(())
}

/// The row of a message in its twelve places; noughts where there is none.
fn written(message: Option<Message>) -> [u64; ROW] {
    let mut row = [0; ROW];
    let _ = endpoint::write(message, &mut row);
    row
}

fn said(says: Option<Message>) -> Effect {
    Effect {
        says,
        delivers: None,
    }
}

#[test]
fn a_load_is_delivered_once() -> Result<(), Fail> {
    let mut ends = Ends::new();
    ends.meet(0, 0, 1, 0)?;
    let frame = load(Direction::Down, 0, 7, pair(0, 0));
    ends.gate_acts(GateAct::SendDown { hand: 0, body: 7 }, Some(frame))?;
    ends.delivers(frame, true)?;
    ends.delivers(frame, false)
}

#[test]
fn b_take_again_installs_nothing() -> Result<(), Fail> {
    let mut ends = Ends::new();
    let p = pair(0, 0);
    ends.meet(0, 0, 1, 0)?;
    ends.hand_acts(
        HandAct::SendUp { gate: 0, body: 7 },
        Some(load(Direction::Up, 0, 7, p)),
    )?;
    ends.hand_hears(take(1, 0, p), Some(Message::Taken { pair: p }))?;
    ends.hand_acts(
        HandAct::SendUp { gate: 0, body: 8 },
        Some(load(Direction::Up, 1, 8, p)),
    )
}

#[test]
fn c_an_old_reply_is_nothing() -> Result<(), Fail> {
    let mut ends = Ends::new();
    ends.meet(0, 0, 1, 0)?;
    ends.gate_acts(GateAct::Invite { hand: 0 }, Some(begin(1)))?;
    ends.gate_hears(Message::Reply { pair: pair(0, 0) }, None)
}

#[test]
fn d_only_the_second_pair_comes_into_use() -> Result<(), Fail> {
    let mut ends = Ends::new();
    let (p, q) = (pair(0, 0), pair(0, 1));
    ends.gate_acts(GateAct::Invite { hand: 0 }, Some(begin(0)))?;
    ends.hand_hears(begin(0), Some(Message::Reply { pair: p }))?;
    ends.hand_hears(begin(0), Some(Message::Reply { pair: q }))?;
    ends.gate_hears(Message::Reply { pair: p }, Some(take(1, 0, p)))?;
    ends.gate_hears(Message::Reply { pair: q }, Some(take(1, 0, q)))?;
    ends.hand_hears(take(1, 0, p), None)?;
    ends.hand_hears(take(1, 0, q), Some(Message::Taken { pair: q }))?;
    ends.gate_hears(Message::Taken { pair: q }, None)?;
    ends.gate_acts(
        GateAct::SendDown { hand: 0, body: 7 },
        Some(load(Direction::Down, 0, 7, q)),
    )
}

#[test]
fn e_a_handheld_that_forgot_meets_anew() -> Result<(), Fail> {
    let mut ends = Ends::new();
    ends.meet(0, 0, 1, 0)?;
    ends.hand_acts(HandAct::ForgetHand, None)?;
    ends.hand_hears(take(1, 0, pair(0, 0)), None)?;
    ends.meet(1, 1, 1, 0)
}

#[test]
fn f_frames_to_all() -> Result<(), Fail> {
    let mut ends = Ends::new();
    let p = pair(0, 0);
    let renew = Message::Renew {
        round: 1,
        group: 2,
        counter: 0,
        pair: p,
    };
    ends.meet(0, 0, 1, 0)?;
    ends.gate_acts(GateAct::Broadcast { body: 5 }, Some(all(1, 0, 5)))?;
    ends.gate_acts(GateAct::Broadcast { body: 5 }, Some(all(1, 1, 5)))?;
    ends.gate_acts(GateAct::Broadcast { body: 5 }, Some(all(1, 2, 5)))?;
    ends.delivers(all(1, 2, 5), true)?;
    ends.delivers(all(1, 0, 5), false)?;
    ends.gate_acts(GateAct::Rotate, None)?;
    ends.gate_acts(GateAct::Rekey { hand: 0 }, Some(renew))?;
    ends.hand_hears(renew, None)?;
    ends.gate_acts(GateAct::Broadcast { body: 6 }, Some(all(2, 0, 6)))?;
    ends.delivers(all(2, 0, 6), true)
}

#[test]
fn g_an_invented_begin_is_not_answered() -> Result<(), Fail> {
    let mut ends = Ends::new();
    let q = pair(0, 1);
    ends.meet(0, 0, 1, 0)?;
    ends.hand_hears(begin(0), Some(Message::Reply { pair: q }))?;
    ends.gate_hears(Message::Reply { pair: q }, None)
}

/// The same acts by their numbers, written as rows.
#[test]
fn acts_by_number(rt: HostRuntime) -> Result<(), Fail> {
    let mut ends = Ends::new();
    let mut says = [7; ROW];
    assert!(rt; ends.gate.act(0, 1, 0, 0, 0, &mut says) == 6);
    assert!(rt; says == [0; ROW]);
    assert!(rt; ends.gate.act(0, 1, 2, 0, 5, &mut says) == 5);
    assert!(rt; says == [6, 0, 1, 0, 5, 0, 0, 0, 0, 0, 0, 0]);
    assert!(rt; ends.gate.act(0, 1, 3, 0, 0, &mut says) == 0);
    assert!(rt; ends.gate.act(0, 1, 2, 0, 6, &mut says) == 5);
    assert!(rt; says == [6, 0, 2, 0, 6, 0, 0, 0, 0, 0, 0, 0]);
    assert!(rt; ends.hand.act(1, 0, 0, 0, 7, &mut says) == 0);
    assert!(rt; says == [0; ROW]);
    Ok(())
}

/// Refused rows: no message, not for this end, a wrong tag; nothing is written but noughts.
#[test]
fn refusals_in_order(rt: HostRuntime) -> Result<(), Fail> {
    let mut hand = Handset::new(1);
    assert!(rt; code(&mut hand, &[7], false) == 1);
    assert!(rt; code(&mut hand, &[0, 1, 0, 0, 0, 0], false) == 2);
    assert!(rt; code(&mut hand, &[0, 0, 1, 0, 0, 0], false) == 2);
    assert!(rt; code(&mut hand, &[6, 0, 1, 0, 5], false) == 3);
    assert!(rt; code(&mut hand, &[6, 0, 1, 0, 5], true) == 0);
    Ok(())
}

fn code(hand: &mut Handset, row: &[u64], genuine: bool) -> u32 {
    let mut says = [7; ROW];
    let mut takes = [7; ROW];
    let Heard {
        code,
        says: said,
        takes: taken,
    } = hand.hear(255, 0, row, genuine, &mut says, &mut takes);
    if said == 0 && taken == 0 && says == [0; ROW] && takes == [0; ROW] {
        code
    } else {
        99
    }
}
