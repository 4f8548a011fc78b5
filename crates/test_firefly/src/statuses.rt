//! The numbers with which the program ends, and the messages that go with them.
use crate::answers::{Answer, is_answer};
use crate::same::same;
use firefly::{Ending, Status, ends, number};
use firefly_outside::MemSink;
use std::alloc::{AllocError, Global};
use std::test::Fail;

// The statuses, each with its number.
fn numbers() -> [(Status, u8); 10] {
    [
        (Status::Done, 0),
        (Status::Usage, 1),
        (Status::ReadFault, 2),
        (Status::SinkFault, 3),
        (Status::Stopped, 4),
        (Status::Memory, 5),
        (Status::Illegal, 6),
        (Status::BadText, 7),
        (Status::TooMany, 8),
        (Status::TooLong, 9),
    ]
}

#[test]
fn each_status_has_its_number(rt: HostRuntime) -> Result<(), Fail> {
    for (status, expected) in numbers() {
        same(&rt, &number(&status), &expected);
    }
    Ok(())
}

// The endings, each with its status and its message.
fn endings() -> [(Ending<'static>, Status, &'static str); 10] {
    let stopped = Ending::Stopped {
        found: 5,
        allowed: 4,
    };
    [
        (
            Ending::Usage,
            Status::Usage,
            concat!(
                "usage: firefly check | run | index DIR [options] | trace DIR [options] | sample SEED FILES",
                " | jobs WORKERS | find QUERY | order | rounds THREADS ROUNDS\n"
            ),
        ),
        (
            Ending::InputFault,
            Status::ReadFault,
            "firefly: input could not be read\n",
        ),
        (
            Ending::Unreadable("a\\b/c"),
            Status::ReadFault,
            "firefly: a\\\\b/c could not be read\n",
        ),
        (
            Ending::OutputFault,
            Status::SinkFault,
            "firefly: output could not be written\n",
        ),
        (
            stopped,
            Status::Stopped,
            "firefly: stopped, 5 files found, 4 allowed\n",
        ),
        (
            Ending::StoppedBy(18446744073709551615),
            Status::Stopped,
            "firefly: stopped by job 18446744073709551615\n",
        ),
        (Ending::Memory, Status::Memory, "firefly: out of memory\n"),
        (
            Ending::BadLine(18446744073709551615),
            Status::BadText,
            "firefly: bad line 18446744073709551615\n",
        ),
        (
            Ending::TooMany,
            Status::TooMany,
            "firefly: 1000001 directories found, 1000000 allowed\n",
        ),
        (
            Ending::TooLong,
            Status::TooLong,
            "firefly: input too long\n",
        ),
    ]
}

// The status and the message of a call that ends like this.
fn ended(alloc: Global, ending: Ending) -> Result<Answer, AllocError> {
    let mut notes = MemSink::with_room(alloc, 200)?;
    let status = ends(&mut notes, ending);
    let notes = notes.bytes().to_vec(alloc)?;
    let out = Vec::new(alloc);
    Ok(Answer { status, out, notes })
}

#[test]
fn each_ending_has_its_status_and_its_message(rt: HostRuntime) -> Result<(), Fail> {
    for (ending, status, message) in endings() {
        let found = ended(rt.alloc(), ending)?;
        is_answer(&rt, &found, status, b"", message);
    }
    Ok(())
}
