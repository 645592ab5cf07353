//! Plays scripts one after the other, each begun by a line `== NAME GATES HANDS`.

#![tactic(auto)]

use anyhow::anyhow;
use script::line::number;
use simulator::{Answer, Simulator};
use std::io::{BufRead, BufReader};
use std::process::ExitCode;
use usage::status;

fn main(rt: HostRuntime) -> ExitCode {
    status(&rt, "playbook", run(&rt))
}

fn run(rt: &HostRuntime) -> anyhow::Result<()> {
    let mut simulator = begin(rt, 0, 0)?;
    let mut count = 0u64;
    for line in BufReader::new(rt.alloc(), rt.stdin())?.lines(rt.alloc()) {
        let line = line?;
        if let Some(Heading { name, gates, hands }) = read_heading(line.as_str()) {
            println!(rt; "== {name}")?;
            simulator = begin(rt, gates, hands)?;
            count = 0;
            continue;
        }
        count = count.saturating_add(1);
        let answer = simulator.play_line(count, line.as_str().as_bytes());
        match answer {
            Answer::Nothing | Answer::Played(_) | Answer::Full => print!(rt; "{answer}")?,
            Answer::Complaint(_) | Answer::Absent { .. } => eprint!(rt; "{answer}")?,
            Answer::NoMemory => return Err(anyhow!("out of memory")),
        }
    }
    Ok(())
}

fn begin(rt: &HostRuntime, gates: u64, hands: u64) -> anyhow::Result<Simulator> {
    Simulator::new(rt.alloc(), gates, hands)?.ok_or_else(|| anyhow!("too many gates or handhelds"))
}

/// How a script begins.
struct Heading<'a> {
    name: &'a str,
    gates: u64,
    hands: u64,
}

fn read_heading(line: &str) -> Option<Heading> {
    let rest = line.strip_prefix("== ")?;
    let (name, counts) = rest.split_once(' ')?;
    let (gates, hands) = counts.split_once(' ')?;
    Some(Heading {
        name,
        gates: number(gates.as_bytes())?,
        hands: number(hands.as_bytes())?,
    })
}
