//! The table of operations: for each its word, what stands after the word, and what it does with a mutex or a thread.
//!
//! A further operation is a row in each function here and in specs/Table.antt. Texts and their reading follow from the rows.
ghost use Rattle.std.specs.Prelude.{◌≡◌};
ghost use Rattle.script_text.specs.Table.{word_text, kinds_of, made, use_of, fate_of, listed, AreSmall};

use crate::line::Operation;
use larch_actions::{CondId, Kind, MutexId, SemId, ThreadId};

/// The first word of an operation.
#[derive(Clone, Copy)]
pub enum Word {
    Acquire,
    Release,
    Wait,
    AlertWait,
    Signal,
    Broadcast,
    P,
    V,
    Alert,
    TestAlert,
    AlertP,
    Add,
    Until,
    AlertUntil,
    Fork,
    Join,
}

/// What may stand after a word.
#[derive(Clone, Copy)]
pub enum Operand {
    /// A name.
    Name(Kind),
    /// A number that may be added.
    Amount,
    /// A number that may be waited for.
    Count,
}

/// The numbers after a word, in order. If there are fewer, the others are 0.
#[derive(Clone, Copy)]
pub struct Numbers {
    pub first: u64,
    pub second: u64,
    pub third: u64,
}

/// What an operation asks of a mutex, and does with it.
#[derive(Clone, Copy)]
pub enum Use {
    /// The thread doesn't hold it, and holds it then.
    Takes(MutexId),
    /// The thread holds it, and doesn't then.
    Gives(MutexId),
    /// The thread holds it, and still does then.
    Needs(MutexId),
    /// It asks nothing.
    Nothing,
}

/// What an operation does with a thread.
#[derive(Clone, Copy)]
pub enum Fate {
    /// The thread begins.
    Begins(ThreadId),
    /// It waits for the thread's end.
    Awaits(ThreadId),
    Nothing,
}

/// All words.
pub const WORDS: [Word; 16] = [
    Word::Acquire,
    Word::Release,
    Word::Wait,
    Word::AlertWait,
    Word::Signal,
    Word::Broadcast,
    Word::P,
    Word::V,
    Word::Alert,
    Word::TestAlert,
    Word::AlertP,
    Word::Add,
    Word::Until,
    Word::AlertUntil,
    Word::Fork,
    Word::Join,
];

/// The word as it is spelt.
pub fn text(word: Word) -> &'static [u8]
    ensures { result.now ≡ word_text word }
{
    match word {
        Word::Acquire => b"acquire",
        Word::Release => b"release",
        Word::Wait => b"wait",
        Word::AlertWait => b"alert-wait",
        Word::Signal => b"signal",
        Word::Broadcast => b"broadcast",
        Word::P => b"p",
        Word::V => b"v",
        Word::Alert => b"alert",
        Word::TestAlert => b"test-alert",
        Word::AlertP => b"alert-p",
        Word::Add => b"add",
        Word::Until => b"until",
        Word::AlertUntil => b"alert-until",
        Word::Fork => b"fork",
        Word::Join => b"join",
    }
}

/// What stands after the word.
pub fn kinds(word: Word) -> &'static [Operand]
    ensures { result.now ≡ kinds_of word }
{
    match word {
        Word::Acquire => &[Operand::Name(Kind::Mutex)],
        Word::Release => &[Operand::Name(Kind::Mutex)],
        Word::Wait => &[Operand::Name(Kind::Mutex), Operand::Name(Kind::Condition)],
        Word::AlertWait => &[Operand::Name(Kind::Mutex), Operand::Name(Kind::Condition)],
        Word::Signal => &[Operand::Name(Kind::Condition)],
        Word::Broadcast => &[Operand::Name(Kind::Condition)],
        Word::P => &[Operand::Name(Kind::Semaphore)],
        Word::V => &[Operand::Name(Kind::Semaphore)],
        Word::Alert => &[Operand::Name(Kind::Thread)],
        Word::TestAlert => &[],
        Word::AlertP => &[Operand::Name(Kind::Semaphore)],
        Word::Add => &[Operand::Name(Kind::Mutex), Operand::Amount],
        Word::Until => &[
            Operand::Name(Kind::Mutex),
            Operand::Name(Kind::Condition),
            Operand::Count,
        ],
        Word::AlertUntil => &[
            Operand::Name(Kind::Mutex),
            Operand::Name(Kind::Condition),
            Operand::Count,
        ],
        Word::Fork => &[Operand::Name(Kind::Thread)],
        Word::Join => &[Operand::Name(Kind::Thread)],
    }
}

/// The operation with this word, and these numbers after it.
pub fn make(word: Word, numbers: Numbers) -> Operation
    requires small { AreSmall (kinds_of word) (listed numbers) }
    ensures { result ≡ made word (listed numbers) }
{
    match word {
        Word::Acquire => Operation::Acquire {
            mutex: MutexId(numbers.first as u32),
        },
        Word::Release => Operation::Release {
            mutex: MutexId(numbers.first as u32),
        },
        Word::Wait => Operation::Wait {
            mutex: MutexId(numbers.first as u32),
            cond: CondId(numbers.second as u32),
        },
        Word::AlertWait => Operation::AlertWait {
            mutex: MutexId(numbers.first as u32),
            cond: CondId(numbers.second as u32),
        },
        Word::Signal => Operation::Signal {
            cond: CondId(numbers.first as u32),
        },
        Word::Broadcast => Operation::Broadcast {
            cond: CondId(numbers.first as u32),
        },
        Word::P => Operation::P {
            sem: SemId(numbers.first as u32),
        },
        Word::V => Operation::V {
            sem: SemId(numbers.first as u32),
        },
        Word::Alert => Operation::Alert {
            who: ThreadId(numbers.first as u32),
        },
        Word::TestAlert => Operation::TestAlert,
        Word::AlertP => Operation::AlertP {
            sem: SemId(numbers.first as u32),
        },
        Word::Add => Operation::Add {
            mutex: MutexId(numbers.first as u32),
            number: numbers.second,
        },
        Word::Until => Operation::Until {
            mutex: MutexId(numbers.first as u32),
            cond: CondId(numbers.second as u32),
            number: numbers.third,
        },
        Word::AlertUntil => Operation::AlertUntil {
            mutex: MutexId(numbers.first as u32),
            cond: CondId(numbers.second as u32),
            number: numbers.third,
        },
        Word::Fork => Operation::Fork {
            who: ThreadId(numbers.first as u32),
        },
        Word::Join => Operation::Join {
            who: ThreadId(numbers.first as u32),
        },
    }
}

/// What the operation does with a mutex.
pub fn mutex_use(operation: &Operation) -> Use
    ensures { result ≡ use_of operation.now }
{
    match operation {
        Operation::Acquire { mutex } => Use::Takes(*mutex),
        Operation::Release { mutex } => Use::Gives(*mutex),
        Operation::Wait { mutex, cond: _ } => Use::Needs(*mutex),
        Operation::AlertWait { mutex, cond: _ } => Use::Needs(*mutex),
        Operation::Signal { cond: _ } => Use::Nothing,
        Operation::Broadcast { cond: _ } => Use::Nothing,
        Operation::P { sem: _ } => Use::Nothing,
        Operation::V { sem: _ } => Use::Nothing,
        Operation::Alert { who: _ } => Use::Nothing,
        Operation::TestAlert => Use::Nothing,
        Operation::AlertP { sem: _ } => Use::Nothing,
        Operation::Add { mutex, number: _ } => Use::Needs(*mutex),
        Operation::Until {
            mutex,
            cond: _,
            number: _,
        } => Use::Needs(*mutex),
        Operation::AlertUntil {
            mutex,
            cond: _,
            number: _,
        } => Use::Needs(*mutex),
        Operation::Fork { who: _ } => Use::Nothing,
        Operation::Join { who: _ } => Use::Nothing,
    }
}

/// What the operation does with a thread.
pub fn thread_fate(operation: &Operation) -> Fate
    ensures { result ≡ fate_of operation.now }
{
    match operation {
        Operation::Fork { who } => Fate::Begins(*who),
        Operation::Join { who } => Fate::Awaits(*who),
        _ => Fate::Nothing,
    }
}
