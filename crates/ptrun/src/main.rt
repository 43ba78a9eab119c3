//! Reads a model from standard input, runs it, and writes its report to standard output.
#![tactic(auto)]

use pt_firing::OpenGate;
use pt_io::{RealSink, RealSource, Sink, Source};
use pt_top::{Status, run_program};
use std::alloc::{AllocError, Global};
use std::process::ExitCode;
use std::rt::Env;
use std::sync::Wait;
use std::thread::Threads;
use std::{env, io};

/// The words of the command line, without the program's name.
fn words_of(rt: &(impl Env + Alloc<A = Global>)) -> io::Result<Vec<String>> {
    let mut words = Vec::new(rt.alloc());
    for word in env::args(rt)?.skip(1) {
        words.push(word)?;
    }
    Ok(words)
}

fn main(rt: HostRuntime) -> ExitCode {
    let Ok(words) = words_of(&rt) else {
        return ExitCode::from(Status::Words as u8);
    };
    let mut source = RealSource::new(rt.stdin());
    let mut sink = RealSink::new(rt.stdout());
    let status = answer(&rt, rt.alloc(), &words, &mut source, &mut sink);
    ExitCode::from(status as u8)
}

/// What the program does, without its clauses: so what `main` lets go of afterwards isn't looked at under all of them.
fn answer<R: Threads + Wait + Sync, S: Source, K: Sink>(
    rt: &R,
    alloc: Global,
    words: &[String],
    source: &mut S,
    sink: &mut K,
) -> Status {
    run_program(rt, alloc, words, source, sink, &OpenGate)
}
