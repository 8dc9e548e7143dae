//! The sections of a page.

use anyhow::Result;

/// A section: what it shows is what a call of the compiler puts, or a part of that.
#[derive(Clone, Copy)]
pub struct Section {
    pub title: &'static str,
    pub call: &'static str,
    pub said: &'static str,
}

/// Writes the head of a section.
pub fn put_head(rt: &HostRuntime, section: &Section) -> Result<()> {
    println!(rt;
        "\n## {} (`{}`)\n\n{}\n\n```",
        section.title, section.call, section.said
    )?;
    Ok(())
}
