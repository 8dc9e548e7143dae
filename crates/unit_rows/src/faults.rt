//! Units with their first fault.

use anyhow::{Result, bail, ensure};
use c_lexer::TEXT_LIMIT;
use c_parser::parse;
use c_types::{TypeFault, check};
use row_sheets::escape::unescape;
use std::alloc::Global;

/// The kind and the place of the first fault, or that there is none, and so a typed unit.
pub fn answer(alloc: Global, given: &str) -> Result<Vec<u8>> {
    let text = unescape(alloc, given)?;
    ensure!(text.len() <= TEXT_LIMIT, "a text that is too long");
    let shown = match parse(alloc, text.as_slice()) {
        Err(_fault) => bail!("a text that has no tree"),
        Ok(unit) => match check(alloc, &unit) {
            Ok(_typed) => "none\n".to_string(alloc)?,
            Err(TypeFault::Typing { at, kind }) => format!(in alloc; "{kind:?} {at}\n")?,
            Err(TypeFault::NoMemory) => bail!("a unit without a typed tree"),
        },
    };
    Ok(shown.into_bytes())
}
