//! What is told of a program that is called wrongly, and its help.
ghost use Rattle.std.specs.Prelude.{◌≡◌, Some};
ghost use Rattle.usage.specs.Arguments.{argument_name, misuse_text, usage_text};

use crate::arguments::{Argument, Fault, Misuse, Program};
use std::error::Error;
use std::fmt;

/// What `--version` prints behind a program's name.
pub const VERSION: &str = "0.2.0";

/// The toolchain that it is proved with.
pub const KIT: &str = "rattle-kit-13f logic dac8208d650f15bf";

/// What `hand --help` prints.
pub const HAND_HELP: &str = "\
hand: a handheld radio, over standard input and output

usage: hand S G FILE

  S     which handheld it is, from 0 to 511
  G     how many gates there are, at most 255
  FILE  the secret that it shares with each gate, 32 bytes for each, then
        entropy

Lines in:
  hear HEX        it hears these bytes
  act 0 N BODY    it sends a body to gate N
  act 1 0 0       it is switched off and on

Lines out:
  say HEX         it says these bytes
  hand on G BODY  it hands on a body from gate G
  refused N       1 no message, 2 not for this end, 3 a wrong tag, 4 no row

Blank lines and lines that begin with # do nothing. A line that is no command
changes nothing and is told on standard error. The status is 0 at the end of
input, 1 where an argument or FILE is wrong.
";

/// What `gate --help` prints.
pub const GATE_HELP: &str = "\
gate: a gate, the fixed radio of a ship, over standard input and output

usage: gate N S FILE

  N     which gate it is, from 0 to 254
  S     how many handhelds there are, at most 512
  FILE  its own secret, 32 bytes, then the secret that it shares with each
        handheld, 32 bytes for each, then entropy

Lines in:
  hear HEX        it hears these bytes
  act 0 N 0       it invites handheld N
  act 1 N BODY    it sends a body to handheld N
  act 2 0 BODY    it sends a body to all
  act 3 0 0       it takes the next group key
  act 4 N 0       it rekeys handheld N
  act 5 0 0       it is switched off and on

Lines out:
  say HEX         it says these bytes
  hand on N BODY  it hands on a body from handheld N
  refused N       1 no message, 2 not for this end, 3 a wrong tag, 4 no row

Blank lines and lines that begin with # do nothing. A line that is no command
changes nothing and is told on standard error. The status is 0 at the end of
input, 1 where an argument or FILE is wrong.
";

/// What `deck --help` prints.
pub const DECK_HELP: &str = "\
deck: plays gates and handhelds from a script on standard input

usage: deck GATES HANDS

  GATES  how many gates there are, at most 8
  HANDS  how many handhelds there are, at most 32

Lines in, of gate 0 and handheld 1:
  0 invites 1         the gate invites the handheld
  0 sends 1 BODY      the gate sends it a body
  0 all BODY          the gate sends a body to all
  0 turns             the gate takes the next group key
  0 words 1           the gate rekeys the handheld
  0 forgets           the gate is switched off and on
  hand 1 sends 0 BODY the handheld sends a body to the gate
  hand 1 forgets      the handheld is switched off and on
  hears 1 P           message P is heard, one to all by handheld 1
  begins 0 1 K W N    an invented begin, with the nonce K, W, N

Lines out:
  sent P ROW          a message is sent, with its place, from 0, and its numbers
  0 hands on ROW      gate 0 hands on a message; hand 1 hands on ROW: handheld 1
  full                10,000 messages are sent, or there are too many ends

Blank lines and lines that begin with # do nothing. A line that is no command
changes nothing and is told on standard error. The status is 0 at the end of
input and when it is full, 1 where an argument is wrong.
";

impl Program {
    /// How the program is called.
    pub fn usage(self) -> &'static str
        ensures { result.now ≡ usage_text self }
    {
        match self {
            Program::Hand => "hand S G FILE",
            Program::Gate => "gate N S FILE",
        }
    }

    fn name(self, argument: Argument) -> &'static str
        ensures { result.now ≡ argument_name self argument }
    {
        match (self, argument) {
            (Program::Hand, Argument::Index) => "S",
            (Program::Hand, Argument::Peers) => "G",
            (Program::Gate, Argument::Index) => "N",
            (Program::Gate, Argument::Peers) => "S",
        }
    }
}

impl Error for Misuse {}

impl fmt::Display for Misuse {
    ghost output = { λ misuse. Some (misuse_text misuse) };

    fn fmt<W: fmt::Write>(&self, f: &mut fmt::Formatter<W>) -> fmt::Result {
        let Misuse { program, fault } = *self;
        match fault {
            Fault::NotThree => write!(f, "three words are wanted")?,
            Fault::NotANumber(argument) => {
                let name = program.name(argument);
                write!(f, "{name} is not a number")?
            }
            Fault::TooLarge(argument) => {
                let name = program.name(argument);
                let limit = program.limit(argument);
                write!(f, "{name} is more than {limit}")?
            }
        }
        let usage = program.usage();
        write!(f, "; usage: {usage}")
    }
}
