//! The compiler as a program: adapters to the system round the top call.
#![tactic(auto)]

use bk_io::host::{HostFiles, HostSink, HostSource};
use bk_io::outside::Sink;
use call_outcomes::outcome::{Outcome, exit_code, put_line};
use call_outcomes::output::finish_output;
use msc_cli::top::msc_main;
use msc_words::words_of;
use std::env;
use std::process::ExitCode;

fn main(rt: HostRuntime) -> ExitCode {
    let outcome = match HostSink::with_capacity(rt.alloc(), 0, rt.stderr()) {
        Ok(mut err) => call(&rt, &mut err),
        Err(_) => Outcome::NoMemory,
    };
    ExitCode::from(exit_code(&outcome))
}

/// The outcome of the call. Where memory is short before the top call, its line is written here.
fn call<E: Sink>(rt: &HostRuntime, err: &mut E) -> Outcome {
    match answer(rt, err) {
        Ok(outcome) => outcome,
        Err(outcome) => {
            put_line(err, &outcome);
            outcome
        }
    }
}

/// Makes the other adapters, and hands the words to the top call.
fn answer<E: Sink>(rt: &HostRuntime, err: &mut E) -> Result<Outcome, Outcome> {
    let alloc = rt.alloc();
    let words = words_of(alloc, env::args(rt))?;
    let mut files = HostFiles::new(alloc, rt.clone()?)?;
    let mut input = HostSource::new(alloc, rt.reader())?;
    let mut out = HostSink::new(alloc, rt.stdout())?;
    let outcome = msc_main(
        alloc,
        words.as_slice(),
        &mut files,
        &mut input,
        &mut out,
        err,
    );
    Ok(finish(&mut out, err, outcome))
}

/// Lets go the rest of the output. A write that fails there is the outcome, and has its line.
fn finish<O: Sink, E: Sink>(out: &mut O, err: &mut E, outcome: Outcome) -> Outcome {
    let last = finish_output(out, outcome);
    if last != outcome {
        put_line(err, &last);
    }
    last
}
