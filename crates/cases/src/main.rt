// Runs `books` on each line of commands.txt, a line being the words that it is given, and prints
// the page or what is said in its place.
#![tactic(auto)]

use frontend::run::answer;
use std::fs;

fn play(rt: &HostRuntime, command: &str) -> anyhow::Result<()> {
    let heap = rt.alloc();
    let words = command
        .split_whitespace()
        .map(|word| String::from_str(heap, word))
        .try_collect::<Vec<String>>(heap)?;
    println!(rt; "$ books {command}")?;
    match answer(rt, words.as_slice()) {
        Ok(page) => rt.println(page)?,
        Err(message) => println!(rt; "books: {message}\n")?,
    }
    Ok(())
}

fn main(rt: HostRuntime) -> anyhow::Result<()> {
    let commands = fs::read_to_string(&rt, "commands.txt")?;
    for command in commands.as_str().lines() {
        play(&rt, command)?;
    }
    Ok(())
}
