//! A handheld: lines on standard input tell it what it hears and does, and it answers on standard output.

#![tactic(auto)]

use anyhow::anyhow;
use sealing::{FileTooShort, FileVault};
use std::io::{BufRead, BufReader};
use std::process::ExitCode;
use std::{env, fs};
use terminal::{HandTerminal, serve};
use usage::{Arguments, HAND_HELP, KIT, Program, Request, VERSION, status};

fn main(rt: HostRuntime) -> ExitCode {
    status(&rt, "hand", run(&rt))
}

fn run(rt: &HostRuntime) -> anyhow::Result<()> {
    // A fourth word tells that there are too many.
    let words: Vec<String> = env::args(rt)?.skip(1).take(4).collect(rt.alloc())?;
    let words: Vec<&str> = words.iter().map(String::as_str).collect(rt.alloc())?;
    match Program::Hand.request(words.as_slice())? {
        Request::Help => print!(rt; "{HAND_HELP}")?,
        Request::Version => println!(rt; "hand {VERSION}, proved with {KIT}")?,
        Request::Run(arguments) => {
            let mut terminal = open(rt, arguments)?;
            let lines = BufReader::new(rt.alloc(), rt.stdin())?.split(rt.alloc(), b'\n');
            serve(rt, &mut terminal, lines)?;
        }
    }
    Ok(())
}

fn open(rt: &HostRuntime, arguments: Arguments<'_>) -> anyhow::Result<HandTerminal<FileVault>> {
    let usage = Program::Hand.usage();
    let Arguments { index, peers, path } = arguments;
    let index = u16::try_from(index)?;
    let gates = u8::try_from(peers)?;
    let file = fs::read(rt, path).map_err(|e| anyhow!("FILE: {e}; usage: {usage}"))?;
    let vault = FileVault::for_hand(file, gates).map_err(|FileTooShort { found, needed }| {
        anyhow!("FILE has {found} bytes, its secrets take {needed}; usage: {usage}")
    })?;
    Ok(HandTerminal::new(vault, index, gates))
}
