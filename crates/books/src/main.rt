// Reads a usage log and the members' credits, bills every member, and prints how the credits stand.
#![tactic(auto)]

use frontend::run::answer;
use std::process::ExitCode;
use std::{env, io};

fn run(rt: &HostRuntime) -> io::Result<ExitCode> {
    let words = env::args(rt)?.skip(1).collect::<Vec<String>>(rt.alloc())?;
    match answer(rt, words.as_slice()) {
        Ok(page) => {
            rt.print(page)?;
            Ok(ExitCode::SUCCESS)
        }
        Err(message) => {
            eprintln!(rt; "books: {message}")?;
            Ok(ExitCode::FAILURE)
        }
    }
}

fn main(rt: HostRuntime) -> ExitCode {
    // Where nothing can be written, the status alone says so.
    run(&rt).unwrap_or(ExitCode::FAILURE)
}
