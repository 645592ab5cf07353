//! The words behind a program's name.
ghost use Rattle.std.specs.Prelude.{◌≡◌, map};
ghost use Rattle.script.specs.Line.{number_of};
ghost use Rattle.usage.specs.Arguments.{Asks, Runs, limit_of, misuse_of, number_for};

use script::number;

/// The programs of the two kinds of end.
#[derive(Clone, Copy, Debug)]
pub enum Program {
    /// `hand S G FILE`: handheld `S` among `G` gates.
    Hand,
    /// `gate N S FILE`: gate `N` with `S` handhelds.
    Gate,
}

/// The arguments that are numbers.
#[derive(Clone, Copy, Debug)]
pub enum Argument {
    /// Which end it is, counted from 0.
    Index,
    /// How many peers it has.
    Peers,
}

/// What a program runs with.
#[derive(Clone, Copy)]
pub struct Arguments<'a> {
    pub index: u64,
    pub peers: u64,
    pub path: &'a str,
}

/// What the words behind a program's name ask for.
#[derive(Clone, Copy)]
pub enum Request<'a> {
    Help,
    Version,
    Run(Arguments<'a>),
}

/// What is wrong with them.
#[derive(Clone, Copy, Debug)]
pub enum Fault {
    /// They are not three.
    NotThree,
    NotANumber(Argument),
    TooLarge(Argument),
}

/// What is wrong with the words behind this program's name.
#[derive(Clone, Copy, Debug)]
pub struct Misuse {
    pub program: Program,
    pub fault: Fault,
}

impl Program {
    /// The largest number that an argument may be.
    pub fn limit(self, argument: Argument) -> u64
        ensures { result ≡ limit_of self argument }
    {
        match (self, argument) {
            (Program::Hand, Argument::Index) => 511,
            (Program::Hand, Argument::Peers) => 255,
            (Program::Gate, Argument::Index) => 254,
            (Program::Gate, Argument::Peers) => 512,
        }
    }

    fn misuse(self, fault: Fault) -> Misuse
        ensures { result ≡ misuse_of self fault }
    {
        Misuse {
            program: self,
            fault,
        }
    }

    // The number that a word writes for an argument.
    fn number(self, argument: Argument, word: &str) -> Result<u64, Misuse>
        ensures { result ≡ number_for self argument (number_of word.now) }
    {
        let n = number(word.as_bytes()).ok_or(self.misuse(Fault::NotANumber(argument)))?;
        if n > self.limit(argument) {
            return Err(self.misuse(Fault::TooLarge(argument)));
        }
        Ok(n)
    }

    // Three words as arguments.
    fn arguments<'a>(self, index: &str, peers: &str, path: &'a str) -> Result<Arguments<'a>, Misuse>
        ensures { Runs self index.now peers.now path.now result }
    {
        let index = self.number(Argument::Index, index)?;
        let peers = self.number(Argument::Peers, peers)?;
        Ok(Arguments { index, peers, path })
    }

    /// What the words behind the program's name ask for.
    #[tactic(auto, using(crate::proofs::Words::first_word))]
    pub fn request<'a>(self, words: &[&'a str]) -> Result<Request<'a>, Misuse>
        ensures { Asks self (map (λ word. word.now) words.entry.now) result }
    {
        match words {
            ["--help", ..] => Ok(Request::Help),
            ["--version", ..] => Ok(Request::Version),
            [index, peers, path] => self.arguments(index, peers, path).map(Request::Run),
            _ => Err(self.misuse(Fault::NotThree)),
        }
    }
}
