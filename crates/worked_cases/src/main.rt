//! Runs the worked cases of a folder, its one argument, or `.` where there is none. It prints what `case_judge` says of
//! them, and fails where one fails.
#![tactic(auto)]

use case_judge::try_folder;
use std::alloc::AllocError;
use std::env;
use std::process::ExitCode;

/// Tries all cases of the folder that is named.
fn try_named(rt: &HostRuntime) -> Result<bool, AllocError> {
    let Ok(mut args) = env::args(rt) else {
        return Ok(false);
    };
    let _program = args.next();
    match args.next() {
        Some(folder) => try_folder(rt, folder.as_str()),
        None => try_folder(rt, "."),
    }
}

fn main(rt: HostRuntime) -> ExitCode {
    match try_named(&rt) {
        Ok(true) => ExitCode::SUCCESS,
        _ => ExitCode::FAILURE,
    }
}
