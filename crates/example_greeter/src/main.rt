//! An example of a program with a servlet of its own, `greeter`, beside the kinds that every
//! container comes with. It takes the words of `sipd` for `replay`, `check` and `serve`.
#![tactic(auto)]

mod greeting;
mod serving;

use greeting::Greets;
use sc_apps::ExtendsOnce;
use sc_edge::FileShelf;
use sc_kinds::BuiltIn;
use sc_limit::output;
use sc_replay::{Command, Status, check, command_of, replay};
use sc_servlets::{Catalogue, Listener};
use sc_value::{NoMemory, Text};
use serving::serve_sockets;
use std::process::ExitCode;
use std::sync::Wait;
use std::thread::Threads;
use std::{env, io};

fn main(rt: HostRuntime) -> ExitCode {
    match words_of(&rt) {
        Ok(words) => ended(run(&rt, &rt, words.as_slice()).unwrap_or(Status::NoMemory)),
        Err(_) => ExitCode::FAILURE,
    }
}

/// The words of the command line, without the program's name.
fn words_of(rt: &HostRuntime) -> io::Result<Vec<String>> {
    let mut words = Vec::new(rt.alloc());
    for word in env::args(rt)?.skip(1) {
        words.push(word)?;
    }
    Ok(words)
}

fn ended(status: Status) -> ExitCode {
    match status {
        Status::Done => ExitCode::SUCCESS,
        _ => ExitCode::FAILURE,
    }
}

/// Runs what the words ask for, with the kinds that a configuration can ask for: the built-in ones,
/// and `greeter`. The catalogue is made where it is used, as the verdict refuses a function that
/// hands boxed servlets out.
fn run<W: Threads + Wait + Sync>(
    rt: &HostRuntime,
    threads: &W,
    words: &[String],
) -> Result<Status, NoMemory> {
    let alloc = rt.alloc();
    let mut apps = Catalogue::new(alloc);
    for kind in BuiltIn::all() {
        let name = Text::from_slice(alloc, kind.name())?;
        let servlet = Box::new(alloc, kind)?;
        let listener: Option<Box<dyn Listener>> = if kind.is_extended() {
            Some(Box::new(alloc, ExtendsOnce)?)
        } else {
            None
        };
        match apps.add(name, servlet, listener) {
            Ok(()) => {}
            Err(_) => return Err(NoMemory),
        }
    }
    let name = Text::from_slice(alloc, b"greeter")?;
    let servlet = Box::new(alloc, Greets)?;
    match apps.add(name, servlet, None) {
        Ok(()) => Ok(run_with(rt, threads, words, &apps)),
        Err(_) => Err(NoMemory),
    }
}

fn run_with<W: Threads + Wait + Sync>(
    rt: &HostRuntime,
    threads: &W,
    words: &[String],
    apps: &Catalogue,
) -> Status {
    let alloc = rt.alloc();
    let mut out = output(rt);
    let mut shelf = FileShelf::new(rt, alloc);
    match command_of(words) {
        Command::Check => check(alloc, words, &mut shelf, apps, &mut out).status,
        Command::Serve => serve_sockets(rt, threads, words, &mut shelf, apps),
        _ => replay(alloc, words, &mut shelf, apps, &mut out).status,
    }
}
