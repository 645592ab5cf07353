//! A gate: lines on standard input tell it what it hears and does, and it answers on standard output.

#![tactic(auto)]

use anyhow::anyhow;
use sealing::{FileTooShort, FileVault};
use std::io::{BufRead, BufReader};
use std::process::ExitCode;
use std::{env, fs};
use terminal::{GateTerminal, serve};
use usage::{Arguments, GATE_HELP, KIT, Program, Request, VERSION, status};

fn main(rt: HostRuntime) -> ExitCode {
    status(&rt, "gate", run(&rt))
}

fn run(rt: &HostRuntime) -> anyhow::Result<()> {
    // A fourth word tells that there are too many.
    let words: Vec<String> = env::args(rt)?.skip(1).take(4).collect(rt.alloc())?;
    let words: Vec<&str> = words.iter().map(String::as_str).collect(rt.alloc())?;
    match Program::Gate.request(words.as_slice())? {
        Request::Help => print!(rt; "{GATE_HELP}")?,
        Request::Version => println!(rt; "gate {VERSION}, proved with {KIT}")?,
        Request::Run(arguments) => {
            let mut terminal = open(rt, arguments)?;
            let lines = BufReader::new(rt.alloc(), rt.stdin())?.split(rt.alloc(), b'\n');
            serve(rt, &mut terminal, lines)?;
        }
    }
    Ok(())
}

fn open(rt: &HostRuntime, arguments: Arguments<'_>) -> anyhow::Result<GateTerminal<FileVault>> {
    let usage = Program::Gate.usage();
    let Arguments { index, peers, path } = arguments;
    let index = u8::try_from(index)?;
    let hands = u16::try_from(peers)?;
    let file = fs::read(rt, path).map_err(|e| anyhow!("FILE: {e}; usage: {usage}"))?;
    let vault = FileVault::for_gate(file, hands).map_err(|FileTooShort { found, needed }| {
        anyhow!("FILE has {found} bytes, its secrets take {needed}; usage: {usage}")
    })?;
    GateTerminal::new(vault, index, hands).ok_or_else(|| anyhow!(
        "S is more than 512; usage: {usage}"
    ))
}
