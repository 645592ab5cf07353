// What is wrong with a line, for the lines of any program.
ghost use Rattle.std.specs.Prelude.{◌≡◌, ℕ, List, Some};
ghost use Rattle.script.specs.Faults.{complaint_text, fault_text};

use std::fmt;

/// The forms that the lines of a program have.
pub trait LineForm: Copy {
    ghost usage_text: { Self → List ℕ };

    /// How a line of this form is written: a word in capitals stands for what differs from line to line.
    fn usage(self) -> &'static str
        ensures { result.now ≡ usage_text self };
}

/// What is wrong with a line that is no command.
#[derive(Clone, Copy)]
pub enum Malformed<F> {
    /// It begins as no command does.
    NotACommand,
    /// It begins as a line of this form, and does not go on so.
    Expected(F),
}

impl<F: LineForm> fmt::Display for Malformed<F> {
    ghost output = { λ fault. Some (fault_text F.usage_text fault) };

    fn fmt<W: fmt::Write>(&self, f: &mut fmt::Formatter<W>) -> fmt::Result {
        match self {
            Malformed::NotACommand => write!(f, "not a command"),
            Malformed::Expected(form) => {
                let usage = form.usage();
                write!(f, "expected {usage}")
            }
        }
    }
}

/// What is wrong with a line, by its number.
#[derive(Clone, Copy)]
pub struct Complaint<F> {
    pub line: u64,
    pub fault: Malformed<F>,
}

impl<F: LineForm> fmt::Display for Complaint<F> {
    ghost output = { λ complaint. Some (complaint_text complaint.line (fault_text F.usage_text complaint.fault)) };

    fn fmt<W: fmt::Write>(&self, f: &mut fmt::Formatter<W>) -> fmt::Result {
        let Complaint { line, fault } = *self;
        write!(f, "line {line}: {fault}")
    }
}
