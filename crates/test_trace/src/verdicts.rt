//! Verdicts of the checker on texts, given at once or byte by byte.
ghost use Rattle.std.specs.Prelude.{◌^◌, ◌-◌, ◌<◌};

use crate::sources::{OneByOne, source_of};
use std::alloc::{AllocError, Global};
use trace_check::{Verdict, check};

// A text that begins a trace. A function without a clause keeps the bytes out of the proofs.
fn head() -> &'static [u8] {
    b"firefly-trace 1\nthreads 2 mutexes 1 conditions 0 semaphores 1\n"
}

/// Returns the text with these lines after its head, which has 62 bytes.
pub fn trace_of(alloc: Global, lines: &[u8]) -> Result<Vec<u8>, AllocError> {
    let mut text = head().to_vec(alloc)?;
    text.extend_from_slice(lines)?;
    Ok(text)
}

/// The verdict on this text, of which the source gives so many bytes and then fails where a number stands.
pub fn verdict_on(
    alloc: Global,
    text: &[u8],
    budget: u64,
    given: Option<usize>,
) -> Result<Verdict, AllocError>
    requires { budget < 2 ^ 64 - 1 }
{
    let mut source = source_of(alloc, text, given)?;
    Ok(check(&mut source, budget))
}

/// The same where the bytes come one by one, and how often they were asked for.
pub fn asking_verdict(
    alloc: Global,
    text: &[u8],
    budget: u32,
    given: Option<usize>,
) -> Result<(Verdict, usize), AllocError> {
    let mut source = OneByOne::new(source_of(alloc, text, given)?);
    let verdict = check(&mut source, u64::from(budget));
    Ok((verdict, source.asked()))
}
