//! A text of a file is compiled.

ghost use Rattle.std.specs.Prelude.{◌≡◌, ◌↔◌, IfOk, IfErr, IfSome, IsErrOf, IsTrue, option_map};
ghost use Rattle.bk_io.specs.Shelf.{is_due, after_call};
ghost use Rattle.call_outcomes.specs.FromFile.{file_bytes, IsCause};
ghost use Rattle.call_outcomes.specs.Output.{file_faults_unless};
ghost use Rattle.compile_calls.specs.Built.{HasBuilt};
ghost use Rattle.compile_calls.specs.Compile.{RefusesText};

use crate::texts::{SOURCE_LIMIT, compile_text};
use bk_io::outside::Files;
use call_outcomes::files::read_file;
use call_outcomes::outcome::Outcome;
use compiler::{Built, Options};
use std::alloc::Global;

/// What is made of the text of a file.
pub(crate) fn compile_file<F: Files>(
    alloc: Global,
    options: &Options,
    name: &str,
    files: &mut F,
) -> Result<Built, Outcome>
    ensures built { IfOk result (HasBuilt (file_bytes (F.told files.old) name.now) options.now.allocator) }
    ensures cause { IfErr result (IsCause (RefusesText (file_bytes (F.told files.old) name.now))) }
    ensures due { IfSome (F.told files.old)
        (λ shelf. IsErrOf result Outcome.FileFault ↔ IsTrue (is_due shelf name.now)) }
    ensures told { F.told files.new ≡ option_map after_call (F.told files.old) }
    ensures count { F.faults files.new ≡ file_faults_unless result (F.faults files.old) }
{
    let text = match read_file(alloc, files, name, SOURCE_LIMIT) {
        Ok(text) => text,
        Err(outcome) => return Err(outcome),
    };
    match compile_text(alloc, text.as_slice(), options) {
        Ok(built) => Ok(built),
        Err(outcome) => Err(outcome),
    }
}
