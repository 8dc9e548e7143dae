//! A source that has no bytes, and a sink that forgets what it takes.

ghost use Rattle.std.specs.Prelude.{[], None, Some};

use crate::outside::{Failed, Sink, Source};

/// A source at its end. It never fails, and tells that it has no bytes, but not how often it was asked.
#[derive(Clone, Copy, Debug)]
pub struct EmptySource;

impl Source for EmptySource {
    ghost faults = { λ _. 0 };

    ghost left = { λ _. Some [] };

    ghost made = { λ _. None };

    fn next(&mut self) -> Result<Option<u8>, Failed> {
        Ok(None)
    }
}

/// A sink that takes every byte and tells nothing of them. It never fails.
#[derive(Clone, Copy, Debug)]
pub struct NullSink;

impl Sink for NullSink {
    ghost faults = { λ _. 0 };

    ghost taken = { λ _. None };

    fn put(&mut self, _byte: u8) -> Result<(), Failed> {
        Ok(())
    }
}
