//! A run in which two parsers wait for each other.
use crate::runs::{plan_of, seen_of};
use std::test::Fail;
use test_project::{Meeting, project, project_index, project_paths};

// These are parsers 1 and 2.
#[test]
fn two_parsers_meet_and_the_closing_walk_is_asked_nothing(rt: HostRuntime) -> Result<(), Fail> {
    let tree = project(rt.alloc())?;
    let meeting = Meeting::new(1);
    let plan = plan_of(2, 2, 1);
    let paths = project_paths();
    let seen = seen_of(
        &rt,
        rt.alloc(),
        &tree,
        &plan,
        &paths,
        &meeting,
        project_index(),
    );
    drop(tree);
    assert!(rt; seen?.found);
    assert!(rt; meeting.was_kept());
    Ok(())
}
