//! Does the same to five stores, line by line of standard input, and prints what each answers.
#![tactic(auto)]

mod action;
mod command;
mod five;
mod trial;

use command::Command;
use std::io;
use trial::{Opening, Trial};

/// Opens new stores in the place of those that are there, and prints how many places they have.
fn reopen(rt: &(impl Print + AllocGlobal), trial: &mut Trial, opening: Opening) -> io::Result<()> {
    *trial = Trial::open(rt.alloc(), opening)?;
    println!(rt; "{}", trial.sizes())
}

/// Does what a line asks for, and prints what came of it.
fn obey(rt: &(impl Print + AllocGlobal), trial: &mut Trial, command: Command) -> io::Result<()> {
    match command {
        Command::Open(opening) => reopen(rt, trial, opening),
        Command::Ask(action) => println!(rt; "{}", trial.ask(action)),
        Command::Differ => println!(rt; "{}", trial.differ()),
    }
}

fn main(rt: HostRuntime) -> io::Result<()> {
    let mut trial = Trial::open(rt.alloc(), Opening::default())?;
    for line in rt.lines(rt.alloc()) {
        let line = line?;
        let text = line.trim_ascii_start();
        if text.is_empty() {
            continue;
        }
        match text.parse::<Command>() {
            Ok(command) => {
                print!(rt; "{line} -> ")?;
                obey(&rt, &mut trial, command)?;
            }
            Err(fault) => println!(rt; "{line} -> {fault}")?,
        }
    }
    Ok(())
}
