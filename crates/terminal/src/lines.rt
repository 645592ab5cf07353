//! Lines of input, played one after the other.
ghost use Rattle.std.specs.Prelude.{◌≡◌, ℕ, ◌-◌, ◌^◌, List, map, Ok, OnOk, Vec};
ghost use Rattle.std.specs.Global.{Global};
ghost use Rattle.std.specs.Iterator.{Drains, IsFinite, UpTo};
ghost use Rattle.terminal.specs.Lines.{Plays, PlaysAll};

use crate::end::End;
use crate::terminal::Terminal;
use console::Answer;
use sealing::Vault;
use std::io;
use std::io::{Eprint, Print};

/// Plays lines one after the other, and prints what they are answered: complaints on standard error.
pub fn serve<E: End, V: Vault, L: Iterator<Item = io::Result<Vec<u8>>> + Drop>(
    rt: &(impl Print + Eprint),
    terminal: &mut Terminal<E, V>,
    lines: L,
) -> io::Result<()>
    requires can { L.can_next lines }
    requires finite { IsFinite (L.remaining lines) }
    requires up_to { UpTo (L.remaining lines) (2 ^ 64 - 1) }
    ensures ok { OnOk result ((read : List (Vec ℕ Global)) × Drains L.next_gives lines (map (λ line. Ok line) read)
        × PlaysAll (Plays (E.hears (V.holds terminal.old.vault) terminal.old.index) (E.acts (V.holds terminal.old.vault) terminal.old.index) E.delivered) 1 (map (λ line. line.items) read) (E.held terminal.old.link) (E.ring terminal.old.link) (E.held terminal.new.link) (E.ring terminal.new.link)) }

    // After an error too it is as some lines left it, each played in its turn.
    ensures played { (all : List (List ℕ)) × PlaysAll (Plays (E.hears (V.holds terminal.old.vault) terminal.old.index) (E.acts (V.holds terminal.old.vault) terminal.old.index) E.delivered) 1 all (E.held terminal.old.link) (E.ring terminal.old.link) (E.held terminal.new.link) (E.ring terminal.new.link) }
    ensures vault { terminal.new.vault ≡ terminal.old.vault }
    ensures index { terminal.new.index ≡ terminal.old.index }
{
    for (before, line) in lines.enumerate() {
        let line = line?;
        let answer = terminal.play_line(before as u64 + 1, line.as_slice());
        print(rt, answer)?;
    }
    Ok(())
}

// A complaint is told on standard error.
fn print(rt: &(impl Print + Eprint), answer: Answer) -> io::Result<()> {
    match answer {
        Answer::Complaint(_) => eprint!(rt; "{answer}"),
        Answer::Nothing | Answer::Refused(_) | Answer::Done { .. } => print!(rt; "{answer}"),
    }
}
