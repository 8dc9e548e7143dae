//! The top call.

ghost use Rattle.std.specs.Prelude.{◌≡◌, ◌≢◌, Some, None, map, option_map, string_bytes};
ghost use Rattle.bk_io.specs.Outside.{traffic_of};
ghost use Rattle.bk_io.specs.Shelf.{after_call};
ghost use Rattle.call_outcomes.specs.Outcome.{line_of};
ghost use Rattle.call_outcomes.specs.Output.{TookUnlessFault, file_faults_after, input_faults_after, output_faults_after};
ghost use Rattle.call_words.specs.Request.{call_is, request_of, CommandHasStack, HasStack, OnFile};
ghost use Rattle.msc_cli.specs.Call.{AnswersByMeaning, AnswersCall, FailsWhereDue, told_after, AnswersWordsByMeaning, AnswersWords};

use crate::assemble::assemble;
use bk_io::outside::{Files, Sink, Source};
use call_images::exec::exec;
use call_images::migrate::migrate;
use call_outcomes::outcome::{Outcome, put_line};
use call_words::compile_options::{Allocator, Options};
use call_words::{Command, Request, WordsFault, read_words};
use compile_calls::build::build;
use compile_calls::generate::generate_and_run;
use compile_calls::print::print;
use compile_calls::run::run;
use compile_calls::vm::vm;
use std::alloc::Global;

/// How a text is compiled by a command that does not ask for it.
const DEFAULT_OPTIONS: Options = Options {
    allocator: Allocator::Binpack,
};

/// Does what the words ask for, and writes the outcome's line to `err`. `words[0]` is the program's name. The file
/// that is named is read once, and no other; `gen` names none. A failed write to `err` changes no outcome. What `out` holds is let go
/// before the line; where that fails, `finish` reports it.
///
/// The commands are `build`, `run`, `vm`, `exec`, `migrate`, `assemble`, `print` and `gen`, each with the options that
/// [`read_words`] takes. Where nothing is asked for, the answer is [`Outcome::Usage`].
pub fn msc_main<F: Files, I: Source, O: Sink, E: Sink>(
    alloc: Global,
    words: &[String],
    files: &mut F,
    input: &mut I,
    out: &mut O,
    err: &mut E,
) -> Outcome
    // What `build` and `run` answer by what the text means: an image that is right for it is written, or is run, and
    // ends where it has enough steps. It is run on the input that was left, where that is told, and else on some input.
    ensures meaning { AnswersWordsByMeaning (request_of (map string_bytes words.now)) result (F.told files.old)
        (traffic_of I.left I.made O.taken input.old out.old)
        (traffic_of I.left I.made O.taken input.new out.new) }

    // Which outcomes there are by the words, the file and the input, with what is made of a text pass by pass, what was
    // done to the input and the output, and that the file that is named is read once.
    ensures answer { AnswersWords (request_of (map string_bytes words.now)) result (F.told files.old) (F.told files.new)
        (traffic_of I.left I.made O.taken input.old out.old)
        (traffic_of I.left I.made O.taken input.new out.new) }
    ensures usage { result ≡ Outcome.Usage → request_of (map string_bytes words.now) ≡ None }

    // Each count of faults rises by one where the outcome tells that fault, and else is as before.
    ensures file_count { F.faults files.new ≡ file_faults_after result (F.faults files.old) }
    ensures input_count { I.faults input.new ≡ input_faults_after result (I.faults input.old) }
    ensures output_count { O.faults out.new ≡ output_faults_after result (O.faults out.old) }

    ensures line { TookUnlessFault (line_of result) (E.taken err.old) (E.taken err.new) (E.faults err.old)
        (E.faults err.new) }
{
    let outcome = perform(alloc, words, files, input, out);
    out.flush();
    put_line(err, &outcome);
    outcome
}

/// Does what the words ask for.
fn perform<F: Files, I: Source, O: Sink>(
    alloc: Global,
    words: &[String],
    files: &mut F,
    input: &mut I,
    out: &mut O,
) -> Outcome
    ensures meaning { AnswersWordsByMeaning (request_of (map string_bytes words.now)) result (F.told files.old)
        (traffic_of I.left I.made O.taken input.old out.old)
        (traffic_of I.left I.made O.taken input.new out.new) }
    ensures answer { AnswersWords (request_of (map string_bytes words.now)) result (F.told files.old) (F.told files.new)
        (traffic_of I.left I.made O.taken input.old out.old)
        (traffic_of I.left I.made O.taken input.new out.new) }
    ensures usage { result ≡ Outcome.Usage → request_of (map string_bytes words.now) ≡ None }
    ensures file_count { F.faults files.new ≡ file_faults_after result (F.faults files.old) }
    ensures input_count { I.faults input.new ≡ input_faults_after result (I.faults input.old) }
    ensures output_count { O.faults out.new ≡ output_faults_after result (O.faults out.old) }
{
    match read_words(alloc, words) {
        Ok(request) => answer_request(alloc, request, files, input, out),
        Err(WordsFault::Usage) => Outcome::Usage,
        Err(WordsFault::NoMemory) => Outcome::NoMemory,
    }
}

/// Does what a command asks for over its file.
fn answer_command<F: Files, I: Source, O: Sink>(
    alloc: Global,
    command: Command,
    file: &str,
    files: &mut F,
    input: &mut I,
    out: &mut O,
) -> Outcome
    requires { CommandHasStack command }
    ensures meaning { AnswersByMeaning (Some (OnFile command file.now)) (F.told files.old) result
        (traffic_of I.left I.made O.taken input.old out.old)
        (traffic_of I.left I.made O.taken input.new out.new) }
    ensures answer { AnswersCall (Some (OnFile command file.now)) (F.told files.old) result
        (traffic_of I.left I.made O.taken input.old out.old)
        (traffic_of I.left I.made O.taken input.new out.new) }
    ensures asked { result ≢ Outcome.Usage }
    ensures due { FailsWhereDue (Some (OnFile command file.now)) (F.told files.old) result }
    ensures told { F.told files.new ≡ option_map after_call (F.told files.old) }
    ensures file_count { F.faults files.new ≡ file_faults_after result (F.faults files.old) }
    ensures input_count { I.faults input.new ≡ input_faults_after result (I.faults input.old) }
    ensures output_count { O.faults out.new ≡ output_faults_after result (O.faults out.old) }
{
    match command {
        Command::Build(options) => build(alloc, &options, file, files, out),
        Command::Run(options, limits) => run(alloc, &options, limits, file, files, input, out),
        Command::Vm { turns } => vm(alloc, &DEFAULT_OPTIONS, turns, file, files, input, out),
        Command::Exec(limits) => exec(alloc, limits, file, files, input, out),
        Command::Migrate => migrate(alloc, file, files, out),
        Command::Assemble => assemble(alloc, file, files, out),
        Command::Print(pass, options) => print(alloc, &options, pass, file, files, out),
    }
}

/// Does what is asked for.
fn answer_request<F: Files, I: Source, O: Sink>(
    alloc: Global,
    request: Request<'_>,
    files: &mut F,
    input: &mut I,
    out: &mut O,
) -> Outcome
    requires { HasStack (call_is request) }
    ensures meaning { AnswersByMeaning (Some (call_is request.entry)) (F.told files.old) result
        (traffic_of I.left I.made O.taken input.old out.old)
        (traffic_of I.left I.made O.taken input.new out.new) }
    ensures answer { AnswersCall (Some (call_is request.entry)) (F.told files.old) result
        (traffic_of I.left I.made O.taken input.old out.old)
        (traffic_of I.left I.made O.taken input.new out.new) }
    ensures asked { result ≢ Outcome.Usage }
    ensures due { FailsWhereDue (Some (call_is request.entry)) (F.told files.old) result }
    ensures told { F.told files.new ≡ told_after (Some (call_is request.entry)) (F.told files.old) }
    ensures file_count { F.faults files.new ≡ file_faults_after result (F.faults files.old) }
    ensures input_count { I.faults input.new ≡ input_faults_after result (I.faults input.old) }
    ensures output_count { O.faults out.new ≡ output_faults_after result (O.faults out.old) }
{
    match request {
        Request::OnFile { command, file } => {
            answer_command(alloc, command, file, files, input, out)
        }
        Request::Generate(generation) => generate_and_run(alloc, &generation, out),
    }
}
