//! Plays a script of gates and handhelds: reads a line, plays it, prints the answer.

#![tactic(auto)]

use anyhow::{Context, anyhow};
use script::line::number;
use simulator::{Answer, Simulator};
use std::env;
use std::io::{BufRead, BufReader};
use std::process::ExitCode;
use usage::{DECK_HELP, KIT, VERSION, status};

const USAGE: &str = "usage: deck GATES HANDS < SCRIPT, with numbers of gates and handhelds";

fn main(rt: HostRuntime) -> ExitCode {
    status(&rt, "deck", run(&rt))
}

fn run(rt: &HostRuntime) -> anyhow::Result<()> {
    // A third word tells that there are too many.
    let words: Vec<String> = env::args(rt)?.skip(1).take(3).collect(rt.alloc())?;
    let words: Vec<&str> = words.iter().map(String::as_str).collect(rt.alloc())?;
    match words.as_slice() {
        ["--help", ..] => print!(rt; "{DECK_HELP}")?,
        ["--version", ..] => println!(rt; "deck {VERSION}, proved with {KIT}")?,
        words => {
            let (gates, hands) = counts(words).context(USAGE)?;
            play(rt, gates, hands)?;
        }
    }
    Ok(())
}

/// How many gates and handhelds there are.
fn counts(words: &[&str]) -> Option<(u64, u64)> {
    let [gates, hands] = words else {
        return None;
    };
    Some((number(gates.as_bytes())?, number(hands.as_bytes())?))
}

fn play(rt: &HostRuntime, gates: u64, hands: u64) -> anyhow::Result<()> {
    let Some(mut simulator) = Simulator::new(rt.alloc(), gates, hands)? else {
        print!(rt; "{}", Answer::Full)?;
        return Ok(());
    };
    let lines = BufReader::new(rt.alloc(), rt.stdin())?.split(rt.alloc(), b'\n');
    for (before, line) in lines.enumerate() {
        let line = line?;
        let answer = simulator.play_line(before as u64 + 1, line.as_slice());
        match answer {
            Answer::Nothing | Answer::Played(_) => print!(rt; "{answer}")?,
            Answer::Complaint(_) | Answer::Absent { .. } => eprint!(rt; "{answer}")?,
            Answer::Full => {
                print!(rt; "{answer}")?;
                break;
            }
            Answer::NoMemory => return Err(anyhow!("out of memory")),
        }
    }
    Ok(())
}
