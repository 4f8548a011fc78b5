//! Sources that give a text at once or byte by byte.
use firefly_outside::{Failed, MemSource, Source};
use std::alloc::{AllocError, Global};

/// Makes a source that gives this text, and fails after so many bytes if a number is given.
pub fn source_of(
    alloc: Global,
    text: &[u8],
    given: Option<usize>,
) -> Result<MemSource, AllocError> {
    let mut source = MemSource::new(text.to_vec(alloc)?);
    if let Some(given) = given {
        source.fail_after(given);
    }
    Ok(source)
}

/// Gives one byte a question, and counts the questions.
#[derive(Drop)]
pub struct OneByOne {
    inner: MemSource,
    asked: usize,
}

impl OneByOne {
    pub fn new(inner: MemSource) -> OneByOne {
        OneByOne { inner, asked: 0 }
    }

    pub fn asked(&self) -> usize {
        self.asked
    }
}

impl Source for OneByOne {
    ghost use Rattle.std.specs.Prelude.{None};
    ghost use Rattle.firefly_outside.specs.Memory.{source_faults};

    ghost left = { λ s. None };

    ghost faults = { λ s. source_faults s.inner };

    fn next(&mut self, buf: &mut [u8]) -> Result<usize, Failed> {
        self.asked = self.asked.saturating_add(1);
        self.inner.next(&mut buf[..1])
    }
}
