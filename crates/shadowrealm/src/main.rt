//! The command `shadowrealm`: it hands the system's files, streams and words to the run, and ends with its status.
#![tactic(auto)]

use sr_command::shadow_run;
use sr_outside::{DirLoader, ErrSink, OutSink};
use std::alloc::AllocError;
use std::process::ExitCode;
use std::{env, io};

/// The status for want of memory.
const OUT_OF_MEMORY: u8 = 8;

fn main(rt: HostRuntime) -> ExitCode {
    match run(&rt) {
        Ok(status) => ExitCode::from(status),
        Err(AllocError) => ExitCode::from(OUT_OF_MEMORY),
    }
}

/// Runs the command with the words of the process. Where they cannot be had they count as no words, which are refused.
fn run(rt: &HostRuntime) -> Result<u8, AllocError> {
    let alloc = rt.alloc();
    let mut words = Vec::new(alloc);
    if let Ok(args) = env::args(rt) {
        for word in args.skip(1) {
            words.push(word)?;
        }
    }
    let mut loader = DirLoader::at(alloc, rt.clone()?, String::new(alloc));
    let mut out = OutSink::over(io::writer(rt));
    let mut err = ErrSink::over(rt.stderr());
    Ok(shadow_run(alloc, &words, &mut loader, &mut out, &mut err))
}
