//! The table of actions: for each its word, the names after the word, and its ending.
//!
//! A further action is a variant of `Action` and of `Word`, a row in each function here, in specs/Rows.antt and proofs/Table.antt, and what it
//! asks and does in specs/Actions.antt. Which names are lawful, texts, their printing and their reading follow from the rows.
ghost use Rattle.std.specs.Prelude.{◌≡◌, ◌≤◌, length, if◌then◌else◌};
ghost use Rattle.larch_actions.specs.Rows.{word_text, since, kinds_of, endings_of, row, none, one, two, answer_of, row_of, is_raised, is_yes, left_by, action_of, IsRow};

use crate::{Action, CondId, Kind, MutexId, SemId, ThreadId, ThreadSet, Version};

/// The word of an action.
#[derive(Clone, Copy)]
pub enum Word {
    Acquire,
    Release,
    P,
    V,
    Enqueue,
    Resume,
    Signal,
    Broadcast,
    Alert,
    TestAlert,
    AlertEnqueue,
    AlertResume,
    AlertP,
    Fork,
    End,
    Join,
}

/// The numbers of the names after a word, in order. If there are fewer, the others are 0.
#[derive(Clone, Copy)]
pub struct Numbers {
    pub first: u32,
    pub second: u32,
}

/// What the names after a word are.
#[derive(Clone, Copy)]
pub enum Kinds {
    Nothing,
    One(Kind),
    Two(Kind, Kind),
}

/// Which endings may follow the names.
#[derive(Clone, Copy)]
pub enum Endings {
    Nothing,
    /// It returns or raises.
    Outcome,
    /// Yes or no.
    Answer,
    /// The threads that are left.
    Threads,
}

/// What follows the names.
#[derive(Clone, Copy)]
pub enum Ending {
    Nothing,
    Returns,
    Raises,
    Yes,
    No,
    Left(ThreadSet),
}

/// An action by its parts.
#[derive(Clone, Copy)]
pub struct Row {
    pub word: Word,
    pub numbers: Numbers,
    pub ending: Ending,
}

/// All words.
pub const WORDS: [Word; 16] = [
    Word::Acquire,
    Word::Release,
    Word::P,
    Word::V,
    Word::Enqueue,
    Word::Resume,
    Word::Signal,
    Word::Broadcast,
    Word::Alert,
    Word::TestAlert,
    Word::AlertEnqueue,
    Word::AlertResume,
    Word::AlertP,
    Word::Fork,
    Word::End,
    Word::Join,
];

impl Word {
    /// The word as it is spelt.
    #[inline(always)]
    pub fn text(self) -> &'static [u8]
        ensures text { result.now ≡ word_text self }
        ensures short { length result.now ≤ 16 }
    {
        match self {
            Word::Acquire => b"acquire",
            Word::Release => b"release",
            Word::P => b"p",
            Word::V => b"v",
            Word::Enqueue => b"enqueue",
            Word::Resume => b"resume",
            Word::Signal => b"signal",
            Word::Broadcast => b"broadcast",
            Word::Alert => b"alert",
            Word::TestAlert => b"test-alert",
            Word::AlertEnqueue => b"alert-enqueue",
            Word::AlertResume => b"alert-resume",
            Word::AlertP => b"alert-p",
            Word::Fork => b"fork",
            Word::End => b"end",
            Word::Join => b"join",
        }
    }

    /// The version that it came with: one, or two, whose traces alone have it.
    #[inline(always)]
    pub fn since(self) -> Version
        ensures { result ≡ since self }
    {
        match self {
            Word::Fork => Version::Two,
            Word::End => Version::Two,
            Word::Join => Version::Two,
            _ => Version::One,
        }
    }

    /// What the names after it are.
    #[inline(always)]
    pub fn kinds(self) -> Kinds
        ensures { result ≡ kinds_of self }
    {
        match self {
            Word::Acquire => Kinds::One(Kind::Mutex),
            Word::Release => Kinds::One(Kind::Mutex),
            Word::P => Kinds::One(Kind::Semaphore),
            Word::V => Kinds::One(Kind::Semaphore),
            Word::Enqueue => Kinds::Two(Kind::Mutex, Kind::Condition),
            Word::Resume => Kinds::Two(Kind::Mutex, Kind::Condition),
            Word::Signal => Kinds::One(Kind::Condition),
            Word::Broadcast => Kinds::One(Kind::Condition),
            Word::Alert => Kinds::One(Kind::Thread),
            Word::TestAlert => Kinds::Nothing,
            Word::AlertEnqueue => Kinds::Two(Kind::Mutex, Kind::Condition),
            Word::AlertResume => Kinds::Two(Kind::Mutex, Kind::Condition),
            Word::AlertP => Kinds::One(Kind::Semaphore),
            Word::Fork => Kinds::One(Kind::Thread),
            Word::End => Kinds::Nothing,
            Word::Join => Kinds::One(Kind::Thread),
        }
    }

    /// Which endings it may have.
    #[inline(always)]
    pub fn endings(self) -> Endings
        ensures { result ≡ endings_of self }
    {
        match self {
            Word::Signal => Endings::Threads,
            Word::TestAlert => Endings::Answer,
            Word::AlertResume => Endings::Outcome,
            Word::AlertP => Endings::Outcome,
            _ => Endings::Nothing,
        }
    }
}

// A row with one name.
#[inline(always)]
fn one(word: Word, first: u32, ending: Ending) -> Row
    ensures { result ≡ row word (one first) ending }
{
    let numbers = Numbers { first, second: 0 };
    Row {
        word,
        numbers,
        ending,
    }
}

// A row with the names of a mutex and a condition.
#[inline(always)]
fn wait(word: Word, mutex: MutexId, cond: CondId, ending: Ending) -> Row
    ensures { result ≡ row word (two mutex.0 cond.0) ending }
{
    let numbers = Numbers {
        first: mutex.0,
        second: cond.0,
    };
    Row {
        word,
        numbers,
        ending,
    }
}

// A row with no name.
#[inline(always)]
fn nameless(word: Word, ending: Ending) -> Row
    ensures { result ≡ row word none ending }
{
    let numbers = Numbers {
        first: 0,
        second: 0,
    };
    Row {
        word,
        numbers,
        ending,
    }
}

// The answer to a test of the own alert.
#[inline(always)]
fn answer(yes: bool) -> Ending
    ensures { result ≡ answer_of yes }
{
    if yes { Ending::Yes } else { Ending::No }
}

impl Action {
    /// Its row, from which it can be made again.
    #[inline(always)]
    pub fn row(&self) -> Row
        ensures row { result ≡ row_of self.now }
        ensures lawful { IsRow result }
        ensures back { action_of result ≡ self.now }
    {
        match *self {
            Action::Acquire { mutex } => one(Word::Acquire, mutex.0, Ending::Nothing),
            Action::Release { mutex } => one(Word::Release, mutex.0, Ending::Nothing),
            Action::P { sem } => one(Word::P, sem.0, Ending::Nothing),
            Action::V { sem } => one(Word::V, sem.0, Ending::Nothing),
            Action::Enqueue { mutex, cond } => wait(Word::Enqueue, mutex, cond, Ending::Nothing),
            Action::Resume { mutex, cond } => wait(Word::Resume, mutex, cond, Ending::Nothing),
            Action::Signal { cond, left } => one(Word::Signal, cond.0, Ending::Left(left)),
            Action::Broadcast { cond } => one(Word::Broadcast, cond.0, Ending::Nothing),
            Action::Alert { who } => one(Word::Alert, who.0, Ending::Nothing),
            Action::TestAlert { yes } => nameless(Word::TestAlert, answer(yes)),
            Action::AlertEnqueue { mutex, cond } => {
                wait(Word::AlertEnqueue, mutex, cond, Ending::Nothing)
            }
            Action::AlertReturn { mutex, cond } => {
                wait(Word::AlertResume, mutex, cond, Ending::Returns)
            }
            Action::AlertRaise { mutex, cond } => {
                wait(Word::AlertResume, mutex, cond, Ending::Raises)
            }
            Action::AlertPReturn { sem } => one(Word::AlertP, sem.0, Ending::Returns),
            Action::AlertPRaise { sem } => one(Word::AlertP, sem.0, Ending::Raises),
            Action::Fork { who } => one(Word::Fork, who.0, Ending::Nothing),
            Action::End => nameless(Word::End, Ending::Nothing),
            Action::Join { who } => one(Word::Join, who.0, Ending::Nothing),
        }
    }
}

// What an ending says, where it is of that sort.

#[inline(always)]
fn raises(ending: &Ending) -> bool
    ensures { result ≡ is_raised ending.now }
{
    matches!(ending, Ending::Raises)
}

#[inline(always)]
fn says_yes(ending: &Ending) -> bool
    ensures { result ≡ is_yes ending.now }
{
    matches!(ending, Ending::Yes)
}

#[inline(always)]
fn threads_left(ending: &Ending) -> ThreadSet
    ensures { result ≡ left_by ending.now }
{
    match ending {
        Ending::Left(left) => *left,
        _ => ThreadSet::empty(),
    }
}

// The end of an alertable wait, and of an alertable P.

#[inline(always)]
fn wait_end(mutex: MutexId, cond: CondId, raises: bool) -> Action
    ensures { result ≡ (if raises then Action.AlertRaise mutex cond else Action.AlertReturn mutex cond) }
{
    if raises {
        Action::AlertRaise { mutex, cond }
    } else {
        Action::AlertReturn { mutex, cond }
    }
}

#[inline(always)]
fn p_end(sem: SemId, raises: bool) -> Action
    ensures { result ≡ (if raises then Action.AlertPRaise sem else Action.AlertPReturn sem) }
{
    if raises {
        Action::AlertPRaise { sem }
    } else {
        Action::AlertPReturn { sem }
    }
}

impl Row {
    /// The action of the row, which has this row again where its numbers and its ending are such as its word has.
    #[inline(always)]
    pub fn action(&self) -> Action
        ensures action { result ≡ action_of self.now }
        ensures back { IsRow self.now → row_of result ≡ self.now }
    {
        let Numbers { first, second } = self.numbers;
        match self.word {
            Word::Acquire => Action::Acquire {
                mutex: MutexId(first),
            },
            Word::Release => Action::Release {
                mutex: MutexId(first),
            },
            Word::P => Action::P { sem: SemId(first) },
            Word::V => Action::V { sem: SemId(first) },
            Word::Enqueue => Action::Enqueue {
                mutex: MutexId(first),
                cond: CondId(second),
            },
            Word::Resume => Action::Resume {
                mutex: MutexId(first),
                cond: CondId(second),
            },
            Word::Signal => Action::Signal {
                cond: CondId(first),
                left: threads_left(&self.ending),
            },
            Word::Broadcast => Action::Broadcast {
                cond: CondId(first),
            },
            Word::Alert => Action::Alert {
                who: ThreadId(first),
            },
            Word::TestAlert => Action::TestAlert {
                yes: says_yes(&self.ending),
            },
            Word::AlertEnqueue => Action::AlertEnqueue {
                mutex: MutexId(first),
                cond: CondId(second),
            },
            Word::AlertResume => wait_end(MutexId(first), CondId(second), raises(&self.ending)),
            Word::AlertP => p_end(SemId(first), raises(&self.ending)),
            Word::Fork => Action::Fork {
                who: ThreadId(first),
            },
            Word::End => Action::End,
            Word::Join => Action::Join {
                who: ThreadId(first),
            },
        }
    }
}
