//! An index from a source.
ghost use Rattle.std.specs.Prelude.{◌≡◌, ◌<◌, ◌≤◌, ◌^◌, length, IfOk, IfErr, IfSome, OnOk};
ghost use Rattle.std.specs.Io.KnownBytes.{IsAtEnd};
ghost use Rattle.exact_text.specs.Intake.{IsReported};
ghost use Rattle.index_text.specs.Faults.{budget, most_bytes, HasReasonIn};
ghost use Rattle.index_text.specs.Texts.{ReadsAs};
ghost use Rattle.index_text.specs.Reads.{HasOffered};

use crate::take::take_rows;
use crate::taker::Taker;
use crate::whole::Whole;
use exact_text::{LongIntake, TextFault};
use firefly_outside::Source;
use index_table::Index;
use std::alloc::Global;

/// How many bytes a text may have where nothing else is said.
const BUDGET: u64 = 67_108_864;

/// Reads the index text that the source gives, which has at most 67,108,864 bytes.
///
/// `BadLine` names the first line at which the input is no prefix of an index text, as soon as the bytes show it; where the input ends too
/// early, the line that was to go on. `TooLong` says that the first 67,108,864 bytes begin an index text and that more come, and `Read`
/// that the source failed before the bytes had shown one of these.
pub fn read_index<I: Source>(alloc: Global, input: &mut I) -> Result<Index, TextFault>
    ensures index { IfOk result (λ i. IfSome (I.left input.old) (λ bytes. (length bytes ≤ budget) × ReadsAs bytes i.rows i.skipped)) }
    ensures end { OnOk result (IsAtEnd (I.left input.new)) }
    ensures fault { IfErr result (HasReasonIn budget (I.left input.old) (I.left input.new) (I.faults input.old) (I.faults input.new)) }
    ensures reported { IsReported (I.faults input.old) (I.faults input.new) result }
{
    read_index_within(alloc, input, BUDGET)
}

/// As `read_index`, for texts of at most so many bytes.
pub fn read_index_within<I: Source>(
    alloc: Global,
    input: &mut I,
    most: u64,
) -> Result<Index, TextFault>
    requires { most ≤ most_bytes }
    ensures index { IfOk result (λ i. IfSome (I.left input.old) (λ bytes. (length bytes ≤ most) × ReadsAs bytes i.rows i.skipped)) }
    ensures end { OnOk result (IsAtEnd (I.left input.new)) }
    ensures fault { IfErr result (HasReasonIn most (I.left input.old) (I.left input.new) (I.faults input.old) (I.faults input.new)) }
    ensures reported { IsReported (I.faults input.old) (I.faults input.new) result }
{
    let mut whole = Whole::new(alloc);
    match offer_index(alloc, input, most, &mut whole) {
        Ok(()) => match whole.finish() {
            Ok(index) => Ok(index),
            Err(_) => Err(TextFault::Memory),
        },
        Err(fault) => Err(fault),
    }
}

/// Reads the index text that the source gives, which has at most so many bytes, and offers the taker each row and skipped path on the way.
///
/// Each fault is as `read_index` says, and `Memory` also where the taker finds none.
pub fn offer_index<I: Source, T: Taker>(
    alloc: Global,
    input: &mut I,
    most: u64,
    taker: &mut T,
) -> Result<(), TextFault>
    requires { most ≤ most_bytes }
    ensures offered { OnOk result (HasOffered T.keeps most (I.left input.old) taker.old taker.new) }
    ensures end { OnOk result (IsAtEnd (I.left input.new)) }
    ensures fault { IfErr result (HasReasonIn most (I.left input.old) (I.left input.new) (I.faults input.old) (I.faults input.new)) }
    ensures reported { IsReported (I.faults input.old) (I.faults input.new) result }
{
    let mut intake = LongIntake::new(alloc, most);
    match intake.fill(input) {
        Ok(_) => {}
        Err(fault) => return Err(fault),
    }
    let mut name = Vec::new(alloc);
    let mut out = Vec::new(alloc);
    match take_rows(&mut intake, input, taker, &mut name, &mut out) {
        Ok(()) => Ok(()),
        Err(fault) => Err(fault),
    }
}
