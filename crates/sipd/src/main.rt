//! `sipd`, a SIP Servlet container (JSR 289, RFC 3261).
#![tactic(auto)]

mod connections;
mod endings;
mod explaining;
mod help;
mod kinds;
mod operating;
mod recording;
mod warning;

use endings::{exit_status, write_line};
use explaining::explanation;
use kinds::{Job, run_with_kinds};
use sc_edge::put_all;
use sc_limit::{Stream, fitting, output, room_of};
use sc_replay::{Command, Status, command_of, make};
use sc_value::Text;
use std::env;
use std::io::{self, ErrorKind, Write};
use std::process::ExitCode;
use std::sync::Wait;
use std::thread::Threads;

fn main(rt: HostRuntime) -> ExitCode {
    let status = match words_of(&rt) {
        Ok(words) => run(&rt, &rt, words.as_slice()),
        Err(e) if e.kind() == ErrorKind::OutOfMemory => Status::NoMemory,
        Err(_) => Status::Usage,
    };
    tell(&rt, &status);
    ExitCode::from(exit_status(&status))
}

/// The words of the command line, without the program's name. One that isn't UTF-8 is an error.
fn words_of(rt: &HostRuntime) -> io::Result<Vec<String>> {
    let mut words = Vec::new(rt.alloc());
    for word in env::args(rt)?.skip(1) {
        words.push(word)?;
    }
    Ok(words)
}

/// Does what the words ask for.
fn run<W: Threads + Wait + Copy + Send + Sync + 'static>(
    rt: &HostRuntime,
    threads: &W,
    words: &[String],
) -> Status {
    match words {
        [word] if word.as_str() == "--help" => put(rt, help::HELP),
        [word] if word.as_str() == "--version" => put(rt, help::VERSION),
        [word, topic, number] if word.as_str() == "explain" => explain(
            rt,
            topic.as_str(),
            number.as_str(),
        ),
        [word, ..] if word.as_str() == "trace" => run_job(rt, threads, words, Job::Trace),
        [word, ..] if word.as_str() == "play" => run_job(rt, threads, words, Job::Play),
        [word, flag, _, _] if word.as_str() == "check" && flag.as_str() == "-v" => {
            run_job(rt, threads, words, Job::Warn)
        }
        _ => run_command(rt, threads, words),
    }
}

/// Writes what a number means of a topic; `Usage` where there is no such one.
fn explain(rt: &HostRuntime, topic: &str, number: &str) -> Status {
    match explanation(topic, number) {
        Some(text) => put(rt, text),
        None => Status::Usage,
    }
}

/// Writes a text on standard output.
fn put(rt: &HostRuntime, text: &str) -> Status {
    match put_all(&mut output(rt), text.as_bytes()) {
        Ok(()) => Status::Done,
        Err(_) => Status::Write,
    }
}

/// Runs the command that the words are.
fn run_command<W: Threads + Wait + Copy + Send + Sync + 'static>(
    rt: &HostRuntime,
    threads: &W,
    words: &[String],
) -> Status {
    match command_of(words) {
        Command::Make => make(rt.alloc(), words, &mut output(rt)).status,
        command => run_job(rt, threads, words, Job::Run(command)),
    }
}

/// Does a job with all kinds of applications.
fn run_job<W: Threads + Wait + Copy + Send + Sync + 'static>(
    rt: &HostRuntime,
    threads: &W,
    words: &[String],
    job: Job,
) -> Status {
    run_with_kinds(rt, threads, words, job).unwrap_or(Status::NoMemory)
}

/// Writes the line on standard error that the status has, as far as there is room for it. Nobody is
/// left to hear of a failure.
fn tell(rt: &HostRuntime, status: &Status) {
    let mut line = Text::new(rt.alloc());
    if write_line(status, &mut line).is_ok() {
        let room = room_of(rt, Stream::Errors);
        let _ = rt.stderr().write_all(fitting(room, line.as_bytes()));
    }
}
