//! The command `print`: a C file in, the text of a pass out.

ghost use Rattle.std.specs.Prelude.{◌≡◌, ◌≢◌, ◌↔◌, IfSome, IsTrue, length, option_map};
ghost use Rattle.bk_io.specs.Shelf.{is_due, after_call};
ghost use Rattle.call_outcomes.specs.FromFile.{file_bytes};
ghost use Rattle.call_outcomes.specs.Output.{file_faults_after, output_faults_after};
ghost use Rattle.compile_calls.specs.Print.{WritesPass, Prints};

use crate::files::compile_file;
use crate::passes::pass_text;
use bk_io::outside::{Files, Sink};
use call_outcomes::outcome::Outcome;
use call_outcomes::output::write_bytes;
use call_words::compile_options::PassName;
use compiler::{Built, Options};
use std::alloc::Global;

/// Writes the text of a pass, all of which is made before the first byte is put.
fn write_pass<O: Sink>(alloc: Global, pass: PassName, built: &Built, out: &mut O) -> Outcome
    requires { length built.now.allocations.items ≡ length built.now.temps.functions }
    ensures answer { WritesPass pass built.now result (O.taken out.old) (O.taken out.new) }
    ensures count { O.faults out.new ≡ output_faults_after result (O.faults out.old) }
    ensures no_file { result ≢ Outcome.FileFault }
    ensures no_input { result ≢ Outcome.InputFault }
{
    match pass_text(alloc, built, pass) {
        Ok(bytes) => write_bytes(out, bytes.as_slice(), Outcome::Printed),
        Err(error) => Outcome::from(error),
    }
}

/// Compiles a C file and writes the text of a pass.
pub fn print<F: Files, O: Sink>(
    alloc: Global,
    options: &Options,
    pass: PassName,
    name: &str,
    files: &mut F,
    out: &mut O,
) -> Outcome
    ensures answer { Prints options.now.allocator pass (file_bytes (F.told files.old) name.now) result
        (O.taken out.old) (O.taken out.new) }
    ensures due { IfSome (F.told files.old) (λ shelf. (result ≡ Outcome.FileFault) ↔ IsTrue (is_due shelf name.now)) }
    ensures told { F.told files.new ≡ option_map after_call (F.told files.old) }
    ensures file_count { F.faults files.new ≡ file_faults_after result (F.faults files.old) }
    ensures output_count { O.faults out.new ≡ output_faults_after result (O.faults out.old) }
    ensures reads_none { result ≢ Outcome.InputFault }
{
    match compile_file(alloc, options, name, files) {
        Ok(built) => write_pass(alloc, pass, &built, out),
        Err(outcome) => outcome,
    }
}
