use super::*;
use frame::{Node, Nonce};
use std::test::Fail;

macro_rules! read {
    ($rt:ident; $($line:literal as $want:pat),+ $(,)?) => {
        $(assert!($rt; matches!(parse($line), $want), "{}", stringify!($line));)+
    };
}

#[test]
fn commands(rt: HostRuntime) -> Result<(), Fail> {
    read!(rt;
        b"0 invites 1" as Ok(Some(Command::Invite { gate: 0, hand: 1 })),
        b"0 sends 1 7" as Ok(Some(Command::Send { gate: 0, hand: 1, body: 7 })),
        b"0 all 7" as Ok(Some(Command::Broadcast { gate: 0, body: 7 })),
        b"2 turns" as Ok(Some(Command::Rotate { gate: 2 })),
        b"0 words 1" as Ok(Some(Command::Rekey { gate: 0, hand: 1 })),
        b"3 forgets" as Ok(Some(Command::ForgetGate { gate: 3 })),
        b"hand 1 sends 0 7" as Ok(Some(Command::SendUp { hand: 1, gate: 0, body: 7 })),
        b"hand 1 forgets" as Ok(Some(Command::ForgetHand { hand: 1 })),
        b"hears 1 12" as Ok(Some(Command::Hear { hand: 1, place: 12 })),
        b"begins 0 1 2 3 4" as Ok(Some(Command::Begin { gate: 0, hand: 1, anonce: Nonce { kind: 2, node: 3, index: 4 } })),
    );
    Ok(())
}

#[test]
fn blanks_comments_and_large_numbers(rt: HostRuntime) -> Result<(), Fail> {
    read!(rt;
        b"" as Ok(None),
        b" \t\r" as Ok(None),
        b"  # 0 turns" as Ok(None),
        b"\t 0  all\t7 \r" as Ok(Some(Command::Broadcast { gate: 0, body: 7 })),
        b"007 turns" as Ok(Some(Command::Rotate { gate: 7 })),
        b"0 all 18446744073709551616" as Ok(Some(Command::Broadcast { gate: 0, body: u64::MAX })),
    );
    assert_eq!(rt; number(&[b'9'; 300]), Some(u64::MAX));
    Ok(())
}

#[test]
fn malformed(rt: HostRuntime) -> Result<(), Fail> {
    read!(rt;
        b"0" as Err(Malformed::NotACommand),
        b"hand" as Err(Malformed::NotACommand),
        b"hand 1 invites 0" as Err(Malformed::NotACommand),
        b"0 eats 1" as Err(Malformed::NotACommand),
        b"+1 turns" as Err(Malformed::NotACommand),
        b"0\rturns" as Err(Malformed::NotACommand),
        b"0 invites" as Err(Malformed::Expected(Form::Invite)),
        b"0 invites 1a" as Err(Malformed::Expected(Form::Invite)),
        b"0 words -1" as Err(Malformed::Expected(Form::Rekey)),
        b"0 turns 1" as Err(Malformed::Expected(Form::Rotate)),
        b"hears" as Err(Malformed::Expected(Form::Hear)),
    );
    Ok(())
}

#[test]
fn texts(rt: HostRuntime) -> Result<(), Fail> {
    let heap = rt.alloc();
    let sent = Sent {
        place: 3,
        row: Row(&[1, 20]),
    };
    assert_eq!(rt; sent.to_string(heap)?.as_str(), "sent 3 1 20");
    let by_gate = HandedOn {
        node: Node::Gate(0),
        row: Row(&[7]),
    };
    assert_eq!(rt; by_gate.to_string(heap)?.as_str(), "0 hands on 7");
    let by_hand = HandedOn {
        node: Node::Hand(1),
        row: Row(&[7, 8]),
    };
    assert_eq!(rt; by_hand.to_string(heap)?.as_str(), "hand 1 hands on 7 8");
    let expected = Complaint {
        line: 3,
        fault: Malformed::Expected(Form::Invite),
    };
    assert_eq!(rt;
        expected.to_string(heap)?.as_str(),
        "line 3: expected GATE invites HAND"
    );
    let unknown = Complaint::<Form> {
        line: 4,
        fault: Malformed::NotACommand,
    };
    assert_eq!(rt; unknown.to_string(heap)?.as_str(), "line 4: not a command");
    Ok(())
}
