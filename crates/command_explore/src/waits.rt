//! What a thread waits for, in words.
ghost use Rattle.std.specs.Prelude.{◌≡◌, ◌≤◌, ◌<◌, ◌+◌, ◌++◌, length, vec_len, codes, decimal};
ghost use lib.ListN.{get_or};
ghost use Rattle.arrayvec.specs.ArrayString.{array_string_len};
ghost use Rattle.script_search.specs.Boards.{moment_of, spec_of, holder_of};
ghost use Rattle.command_explore.specs.Waits.{at_text, holder_text, mutex_text, number_text, thread_text, wait_text, waits_text};

use arrayvec::ArrayString;
use larch_actions::{CondId, MutexId};
use script_search::Board;
use script_text::Operation;
use text_output::push_with_number;

/// A line with its newline.
pub type Text = ArrayString<256>;

// The holder of the mutex.
fn holder(board: &Board, mutex: MutexId) -> Option<u32>
    ensures { holder_of result ≡ (spec_of (moment_of board.now)).holder mutex.0 }
{
    let place = mutex.0 as usize;
    if place < board.holders.len() {
        board.holders[place]
    } else {
        None
    }
}

// The number of the mutex.
fn number_of(numbers: &[u64], mutex: MutexId) -> u64
    ensures { result ≡ get_or numbers.now mutex.0 0 }
{
    match numbers.get(mutex.0 as usize) {
        Some(number) => *number,
        None => 0,
    }
}

// Adds who holds a mutex.
fn push_holder(text: &mut Text, holder: Option<u32>)
    requires { array_string_len text.old + 32 ≤ 256 }
    ensures bytes { text.new.bytes ≡ text.old.bytes ++ holder_text (holder_of holder) }
    ensures len { array_string_len text.new ≤ array_string_len text.old + 32 }
{
    if let Some(thread) = holder {
        push_with_number(text, ", held by t", thread as u64);
    }
}

// Adds that the thread waits for the mutex.
fn push_mutex(text: &mut Text, board: &Board, mutex: MutexId)
    requires { array_string_len text.old + 64 ≤ 256 }
    ensures bytes { text.new.bytes ≡ text.old.bytes ++ mutex_text (spec_of (moment_of board.now)) mutex.0 }
    ensures len { array_string_len text.new ≤ array_string_len text.old + 64 }
{
    push_with_number(text, " waits for m", mutex.0 as u64);
    push_holder(text, holder(board, mutex));
}

// Adds that the thread is in the condition.
fn push_inside(text: &mut Text, mutex: MutexId, cond: CondId, more: &str)
    requires room { array_string_len text.old + length more.now + 60 ≤ 256 }
    ensures bytes { text.new.bytes ≡ text.old.bytes
        ++ (codes " is in c" ++ decimal cond.0 ++ codes " of m" ++ decimal mutex.0 ++ more.now) }
    ensures len { array_string_len text.new ≤ array_string_len text.old + length more.now + 60 }
{
    push_with_number(text, " is in c", cond.0 as u64);
    push_with_number(text, " of m", mutex.0 as u64);
    text.push_str(more);
}

// Adds where the thread is in its wait.
fn push_wait(text: &mut Text, board: &Board, thread: u32, mutex: MutexId, cond: CondId, more: &str)
    requires thread { thread < vec_len board.now.threads }
    requires room { array_string_len text.old ≤ 60 }
    requires few { length more.now ≤ 72 }
    ensures bytes { text.new.bytes ≡ text.old.bytes ++ wait_text (spec_of (moment_of board.now)) thread mutex.0 cond.0 more.now }
    ensures len { array_string_len text.new ≤ 250 }
{
    if board.is_inside(cond.0, thread) {
        push_inside(text, mutex, cond, more);
    } else {
        push_with_number(text, " is out of c", cond.0 as u64);
        text.push_str(" and");
        push_mutex(text, board, mutex);
    }
}

// The number that a mutex has, and whether it is as large as the one that is waited for.
fn number_words(now: u64, least: u64) -> ArrayString<72>
    ensures bytes { result.bytes ≡ number_text now least }
    ensures len { array_string_len result ≤ 72 }
{
    let mut text = ArrayString::<72>::new();
    push_with_number(&mut text, ", whose number is ", now);
    if least <= now {
        text.push_str(", which is enough");
    } else {
        push_with_number(&mut text, ", not ", least);
    }
    text
}

// Adds what the thread waits for in this call.
fn push_waits(text: &mut Text, board: &Board, numbers: &[u64], thread: u32, operation: &Operation)
    requires thread { thread < vec_len board.now.threads }
    requires room { array_string_len text.old ≤ 60 }
    ensures bytes { text.new.bytes ≡ text.old.bytes ++ waits_text (spec_of (moment_of board.now)) numbers.now thread operation.now }
    ensures len { array_string_len text.new ≤ 250 }
{
    match *operation {
        Operation::Acquire { mutex } => push_mutex(text, board, mutex),
        Operation::Wait { mutex, cond } => push_wait(text, board, thread, mutex, cond, ""),
        Operation::AlertWait { mutex, cond } => push_wait(text, board, thread, mutex, cond, ""),
        Operation::Until {
            mutex,
            cond,
            number,
        } => {
            let more = number_words(number_of(numbers, mutex), number);
            push_wait(text, board, thread, mutex, cond, more.as_str());
        }
        Operation::AlertUntil {
            mutex,
            cond,
            number,
        } => {
            let more = number_words(number_of(numbers, mutex), number);
            push_wait(text, board, thread, mutex, cond, more.as_str());
        }
        Operation::P { sem } => push_with_number(text, " waits for s", sem.0 as u64),
        Operation::AlertP { sem } => push_with_number(text, " waits for s", sem.0 as u64),
        Operation::Join { who } => {
            push_with_number(text, " waits for the end of t", who.0 as u64);
        }
        _ => text.push_str(" can't go on"),
    }
}

/// Returns the line of a thread that stands at this line of the script's text.
pub fn at_line(
    board: &Board,
    numbers: &[u64],
    thread: u32,
    line: u64,
    operation: &Operation,
) -> Text
    requires { thread < vec_len board.now.threads }
    ensures { result.bytes ≡ at_text (spec_of (moment_of board.now)) numbers.now thread line operation.now }
{
    let mut text = Text::new();
    push_with_number(&mut text, "firefly: t", thread as u64);
    push_with_number(&mut text, " at line ", line);
    push_waits(&mut text, board, numbers, thread, operation);
    text.push_str("\n");
    text
}

/// Returns the line that says these words of a thread.
pub fn said_of(thread: u32, words: &str) -> Text
    requires few { length words.now ≤ 32 }
    ensures { result.bytes ≡ thread_text thread ++ words.now }
{
    let mut text = Text::new();
    push_with_number(&mut text, "firefly: t", thread as u64);
    text.push_str(words);
    text
}
