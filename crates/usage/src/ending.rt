//! How a program ends.
ghost use Rattle.std.specs.Prelude.{◌≡◌, ◌≤◌, IsOk, ◌↔◌};
ghost use Rattle.std.specs.Process.{exit_status};

use std::io::Eprint;
use std::process::ExitCode;

/// The status that a program ends with. What went wrong is told on standard error, behind the program's name.
pub fn status(rt: &impl Eprint, program: &str, outcome: anyhow::Result<()>) -> ExitCode
    ensures success { (exit_status result ≡ 0) ↔ IsOk outcome }
    ensures failure { exit_status result ≤ 1 }
{
    match outcome {
        Ok(()) => ExitCode::SUCCESS,
        Err(e) => {
            let _ = eprintln!(rt; "{program}: {e}");
            ExitCode::FAILURE
        }
    }
}
