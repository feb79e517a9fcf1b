// The console: plays a script of calls from standard input, and answers each with a line.
#![tactic(auto)]

mod answers;
mod command;
mod desk;
mod desks;
mod fields;
mod fleets;
mod pieces;
mod script;
mod show;

use crate::answers::{Answer, Failure};
use crate::desks::Desks;
use crate::script::{Line, parse_script};
use crate::show::Refused;
use std::alloc::Global;
use std::io::Read;
use std::rt::Files;
use std::{env, fs, io};

/// Prints an answer or a refusal.
fn print_answer(rt: &impl Print, answer: Result<Answer<'_>, Failure>) -> io::Result<()> {
    match answer {
        Ok(answer) => println!(rt; "{answer}"),
        Err(Failure::Refused(refusal)) => rt.println(Refused(refusal)),
        Err(Failure::OutOfMemory(error)) => Err(io::Error::from(error)),
    }
}

/// Plays the lines in order on two new desks, and prints each answer.
fn play(rt: &impl Print, heap: Global, lines: &[Line]) -> io::Result<()> {
    let mut desks = Desks::new(heap);
    for line in lines {
        match line {
            Ok(command) => print_answer(rt, desks.answer(heap, command))?,
            Err(bad) => println!(rt; "{bad}")?,
        }
    }
    Ok(())
}

/// Plays one script.
fn play_script(rt: &impl Print, heap: Global, script: &[u8]) -> io::Result<()> {
    let lines = parse_script(heap, script)?;
    play(rt, heap, lines.as_slice())
}

/// Plays the script that a reader gives.
fn play_input(rt: &impl Print, heap: Global, input: &mut impl Read) -> io::Result<()> {
    let mut script = Vec::new(heap);
    input.read_to_end(&mut script)?;
    play_script(rt, heap, script.as_slice())
}

/// Plays the script in a file, or says why it cannot be read and what to give.
fn play_file(rt: &(impl Files + AllocGlobal + Print + Eprint), path: &str) -> io::Result<()> {
    match fs::read(rt, path) {
        Ok(script) => play_script(rt, rt.alloc(), script.as_slice()),
        Err(error) => {
            eprintln!(rt; "console: {path}: {error}")?;
            eprintln!(rt;
                "give the paths of scripts, or - or nothing to read a script from standard input; docs/RULES.md lists the commands"
            )?;
            Err(error)
        }
    }
}

/// Plays standard input, or each file that is named; `-` is standard input.
fn main(rt: HostRuntime) -> io::Result<()> {
    let mut named = false;
    for path in env::args(&rt)?.skip(1) {
        named = true;
        if path.as_str() == "-" {
            play_input(&rt, rt.alloc(), &mut rt.stdin())?;
        } else {
            play_file(&rt, path.as_str())?;
        }
    }
    if !named {
        play_input(&rt, rt.alloc(), &mut rt.stdin())?;
    }
    Ok(())
}
