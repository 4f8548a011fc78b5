//! Index texts, taken from a source.
ghost use Rattle.std.specs.Prelude.{◌≡◌, ℕ, ◌≤◌, [], None, OnOk};
ghost use Rattle.exact_text.specs.Intake.{IsReported};
ghost use Rattle.index_text.specs.Numerals.{capped};
ghost use Rattle.index_text.specs.Texts.{AreHits, ArePaths};
ghost use Rattle.index_text.specs.Offered.{Offered, Offers, IsOffered};
ghost use Rattle.index_text.specs.Takes.{TakesHit, TakesPaths, TakesRow, TakesRows, TakesSkipped};

use crate::lines::Prefix;
use crate::next::{next_heading, next_hit, next_skipped};
use crate::taker::Taker;
use exact_text::{LongIntake, TextFault};
use firefly_outside::Source;

// Takes the line of a skipped path above the last one.
fn take_skipped<I: Source, T: Taker>(
    intake: &mut LongIntake,
    input: &mut I,
    taker: &mut T,
    out: &mut Vec<u8>,
) -> Result<(), TextFault>
    requires { IsOffered T.keeps taker.old (λ t. ArePaths None t.skipped) }
    ensures taken { Offers T.keeps taker.old taker.new result (λ t. ArePaths None t.skipped) (λ t t'. TakesSkipped t t' intake.old intake.new
        (I.left input.old) (I.left input.new) (I.faults input.old) (I.faults input.new) result) }
    ensures reported { IsReported (I.faults input.old) (I.faults input.new) result }
{
    match next_skipped(intake, input, taker.last_skipped(), out) {
        Ok(()) => {}
        Err(fault) => return Err(fault),
    }
    match taker.skip(out) {
        Ok(()) => Ok(()),
        Err(_) => Err(TextFault::Memory),
    }
}

// Takes the line of a file with a path above the last one of the row.
fn take_hit<I: Source, T: Taker>(
    intake: &mut LongIntake,
    input: &mut I,
    taker: &mut T,
    out: &mut Vec<u8>,
) -> Result<(), TextFault>
    requires { IsOffered T.keeps taker.old (λ t. AreHits None t.hits) }
    ensures taken { Offers T.keeps taker.old taker.new result (λ t. AreHits None t.hits) (λ t t'. TakesHit t t' intake.old intake.new
        (I.left input.old) (I.left input.new) (I.faults input.old) (I.faults input.new) result) }
    ensures reported { IsReported (I.faults input.old) (I.faults input.new) result }
{
    let (count, line) = match next_hit(intake, input, taker.last_path(), out) {
        Ok(figures) => figures,
        Err(fault) => return Err(fault),
    };
    match taker.hit(out, count, line) {
        Ok(()) => Ok(()),
        Err(_) => Err(TextFault::Memory),
    }
}

// Takes a row of so many hits after its first line. The greatest number of 64 bits stands for every greater one too: the bytes end first.
fn take_row<I: Source, T: Taker>(
    intake: &mut LongIntake,
    input: &mut I,
    word: &[u8],
    many: u64,
    taker: &mut T,
    out: &mut Vec<u8>,
) -> Result<(), TextFault>
    requires none { IsOffered T.keeps taker.old (λ t. t.hits ≡ []) }
    requires many { 1 ≤ many }
    ensures taken { Offers T.keeps taker.old taker.new result (λ t. t.hits ≡ []) (λ t t'. (n : ℕ) → many ≡ capped n → TakesRow word.now n t t'
        intake.old intake.new (I.left input.old) (I.left input.new) (I.faults input.old) (I.faults input.new) result) }
    ensures reported { IsReported (I.faults input.old) (I.faults input.new) result }
{
    match taker.begin_row(word) {
        Ok(()) => {}
        Err(_) => return Err(TextFault::Memory),
    }
    let mut left = many;
    while left > 0 {
        match take_hit(intake, input, taker, out) {
            Ok(()) => {}
            Err(fault) => return Err(fault),
        }
        left -= 1;
    }
    match taker.end_row() {
        Ok(()) => Ok(()),
        Err(_) => Err(TextFault::Memory),
    }
}

// Takes skipped paths up to the end.
fn take_paths<I: Source, T: Taker>(
    intake: &mut LongIntake,
    input: &mut I,
    taker: &mut T,
    out: &mut Vec<u8>,
) -> Result<(), TextFault>
    requires before { IsOffered T.keeps taker.old (λ t. ArePaths None t.skipped) }
    ensures taken { Offers T.keeps taker.old taker.new result (λ t. ArePaths None t.skipped) (λ t t'. TakesPaths t t' intake.old intake.new
        (I.left input.old) (I.left input.new) (I.faults input.old) (I.faults input.new) result) }
    ensures reported { IsReported (I.faults input.old) (I.faults input.new) result }
{
    loop {
        match intake.goes_on(input) {
            Ok(true) => {}
            Ok(false) => return Ok(()),
            Err(fault) => return Err(fault),
        }
        match take_skipped(intake, input, taker, out) {
            Ok(()) => {}
            Err(fault) => return Err(fault),
        }
    }
}

/// Takes rows and skipped paths up to the end.
pub fn take_rows<I: Source, T: Taker>(
    intake: &mut LongIntake,
    input: &mut I,
    taker: &mut T,
    name: &mut Vec<u8>,
    out: &mut Vec<u8>,
) -> Result<(), TextFault>
    ensures taken { (t : Offered) × OnOk result (T.keeps taker.old t taker.new) × TakesRows t intake.old intake.new (I.left input.old)
        (I.left input.new) (I.faults input.old) (I.faults input.new) result }
    ensures reported { IsReported (I.faults input.old) (I.faults input.new) result }
{
    taker.begin(intake.bytes());
    loop {
        match intake.goes_on(input) {
            Ok(true) => {}
            Ok(false) => return Ok(()),
            Err(fault) => return Err(fault),
        }
        match next_heading(intake, input, taker.last_word(), name) {
            Ok(Prefix::Word(many)) => {
                match take_row(intake, input, name.as_slice(), many, taker, out) {
                    Ok(()) => {}
                    Err(fault) => return Err(fault),
                }
            }
            Ok(Prefix::Skipped) => {
                match taker.skip(name) {
                    Ok(()) => {}
                    Err(_) => return Err(TextFault::Memory),
                }
                return take_paths(intake, input, taker, out);
            }
            Err(fault) => return Err(fault),
        }
    }
}
