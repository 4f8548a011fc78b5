//! The index of more directories than are allowed.
use crate::answers::{answer_of, is_answer};
use crate::crowd::{Crowd, crowded_trees};
use firefly::Status;
use firefly_outside::MemSource;
use std::test::Fail;

#[test]
fn a_million_directories_below_the_root_are_too_many(rt: HostRuntime) -> Result<(), Fail> {
    let alloc = rt.alloc();
    let mut trees = crowded_trees(alloc, 1_000_000)?;
    let mut input = MemSource::new(Vec::new(alloc));
    let found = answer_of(&rt, alloc, &["index", "big"], &mut trees, &mut input, 1000);
    drop(input);
    drop(trees);
    let found = found?;
    let message = "firefly: 1000001 directories found, 1000000 allowed\n";
    is_answer(&rt, &found, Status::TooMany, b"", message);
    Ok(())
}
