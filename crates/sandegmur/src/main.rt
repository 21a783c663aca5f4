// The program: an archive from standard input, its lines to standard output. What it does is proved in crates/program. Its exit status is 0,
// or 1 where a read or a write failed.
#![tactic(auto)]

use std::process::ExitCode;

fn main(rt: HostRuntime) -> ExitCode {
    let mut input = rt.stdin();
    let mut output = rt.stdout();
    let mut errors = rt.stderr();
    if program::sandegmur_run(&mut input, &mut output, &mut errors) == 0 {
        return ExitCode::SUCCESS;
    }
    ExitCode::FAILURE
}
