//! The kinds of applications that the program has.

use crate::connections::serve_connections;
use crate::warning::check_and_warn;
use sc_apps::ExtendsOnce;
use sc_edge::FileShelf;
use sc_kinds::BuiltIn;
use sc_limit::output;
use sc_play::play;
use sc_replay::{Command, Status, check, replay, trial};
use sc_servlets::{Catalogue, Listener};
use sc_trace::trace;
use sc_value::{NoMemory, Text};
use std::sync::Wait;
use std::thread::Threads;

/// What is run with all kinds.
#[derive(Clone, Copy)]
pub enum Job {
    /// `trace`, of either form.
    Trace,
    /// `play`.
    Play,
    /// `check -v`.
    Warn,
    /// A command of the container.
    Run(Command),
}

/// Does a job over files, standard output and sockets with all kinds, each under the name by which
/// a configuration asks for it. Words of another form are left to `replay`, which refuses them.
pub fn run_with_kinds<W: Threads + Wait + Copy + Send + Sync + 'static>(
    rt: &HostRuntime,
    threads: &W,
    words: &[String],
    job: Job,
) -> Result<Status, NoMemory> {
    let alloc = rt.alloc();
    let mut apps = Catalogue::new(alloc);
    for kind in BuiltIn::all() {
        let name = Text::from_slice(alloc, kind.name())?;
        let servlet = Box::new(alloc, kind)?;
        let listener: Option<Box<dyn Listener>> = if kind.is_extended() {
            Some(Box::new(alloc, ExtendsOnce)?)
        } else {
            None
        };
        match apps.add(name, servlet, listener) {
            Ok(()) => {}
            Err(_) => return Err(NoMemory),
        }
    }
    Ok(run_with(rt, threads, words, job, &apps))
}

fn run_with<W: Threads + Wait + Copy + Send + Sync + 'static>(
    rt: &HostRuntime,
    threads: &W,
    words: &[String],
    job: Job,
    apps: &Catalogue,
) -> Status {
    let alloc = rt.alloc();
    let mut out = output(rt);
    let mut shelf = FileShelf::new(rt, alloc);
    match job {
        Job::Trace => trace(alloc, words, &mut shelf, apps, &mut out),
        Job::Play => play(alloc, words, &mut shelf, apps, &mut out),
        Job::Warn => check_and_warn(alloc, words, &mut shelf, apps, &mut out),
        Job::Run(Command::Check) => check(alloc, words, &mut shelf, apps, &mut out).status,
        Job::Run(Command::Trial) => trial(alloc, words, apps, &mut out).status,
        Job::Run(Command::Serve) => serve_connections(rt, threads, words, &mut shelf, apps),
        Job::Run(_) => replay(alloc, words, &mut shelf, apps, &mut out).status,
    }
}
