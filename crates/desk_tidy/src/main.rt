// Writes the tidy form of each frame on standard input (02, P14) to standard output, for an archive. On standard error: a line for each frame that
// is refused, which is left out, and at the end what came of the stream. A word asks for the exit status, which the
// script `desk` at the top ends with too; with no word it is 0.
#![tactic(auto)]

mod archive;
mod tell;

use std::process::ExitCode;

fn main(rt: HostRuntime) -> ExitCode {
    let status = archive::read(rt);
    if 1 < outside::word_count(&rt) {
        return ExitCode::from(status);
    }
    ExitCode::SUCCESS
}
