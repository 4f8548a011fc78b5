//! Sets of threads.
ghost use Rattle.std.specs.Prelude.{◌≡◌, ◌≢◌, ◌<◌, cond, eqb, ℕ, true, false, List, [], ◌∷◌};

use crate::ThreadId;

/// A set of thread numbers below 256.
#[derive(Clone, Copy, Debug, PartialEq, Eq)]
pub struct ThreadSet {
    // Of each thread a bit, 64 in a word.
    words: [u64; 4],
}

impl ThreadSet {
    ghost use Rattle.larch_actions.specs.Sets.{in_set, set_of};
    ghost use Rattle.larch_actions.specs.Actions.{MayLeave};
    ghost use Rattle.larch_actions.specs.Layout.{most_threads};

    /// The set of no thread.
    #[inline(always)]
    pub fn empty() -> ThreadSet
        ensures list { result ≡ set_of [] }
        ensures members { (t : ℕ) → in_set result t ≡ false }
    {
        ThreadSet {
            words: [0, 0, 0, 0],
        }
    }

    /// Adds a thread.
    pub fn insert(&mut self, t: ThreadId)
        requires { t.0 < most_threads }
        ensures list { (xs : List ℕ) → self.old ≡ set_of xs → self.new ≡ set_of (t.0 ∷ xs) }
        ensures members { (k : ℕ) → in_set self.new k ≡ cond (eqb t.0 k) true (in_set self.old k) }
    {
        let at = (t.0 / 64) as usize;
        let word = self.words[at];
        self.words[at] = word | 1 << (t.0 % 64);
    }

    /// Takes a thread out.
    pub fn remove(&mut self, t: ThreadId)
        requires { t.0 < most_threads }
        ensures members { (k : ℕ) → in_set self.new k ≡ cond (eqb t.0 k) false (in_set self.old k) }
    {
        let at = (t.0 / 64) as usize;
        let word = self.words[at];
        self.words[at] = word & !(1 << (t.0 % 64));
    }

    /// Whether the thread is in the set.
    #[inline(always)]
    pub fn has(&self, t: ThreadId) -> bool
        requires { t.0 < most_threads }
        ensures { result ≡ in_set self.now t.0 }
    {
        (self.words[(t.0 / 64) as usize] >> (t.0 % 64)) & 1 == 1
    }

    /// Whether a Signal may leave that set of this one: no thread, or some of its threads and not all.
    pub(crate) fn may_leave(&self, left: &ThreadSet) -> bool
        ensures sound { result ≡ true → MayLeave (in_set self.now) (in_set left.now) }
        ensures complete { MayLeave (in_set self.now) (in_set left.now) → result ≡ true }
    {
        left.is_empty() || left.is_within(self) && !left.is_same(self)
    }

    fn is_empty(&self) -> bool
        ensures none { result ≡ true → (t : ℕ) → in_set self.now t ≡ false }
        ensures some { result ≡ false → (t : ℕ) × (in_set self.now t ≡ true) }
    {
        for i in 0..4 {
            if self.words[i] != 0 {
                return false;
            }
        }
        true
    }

    fn is_within(&self, other: &ThreadSet) -> bool
        ensures all { result ≡ true → (t : ℕ) → in_set self.now t ≡ true → in_set other.now t ≡ true }
        ensures some { result ≡ false → (t : ℕ) × (in_set self.now t ≡ true) × (in_set other.now t ≡ false) }
    {
        for i in 0..4 {
            if self.words[i] & other.words[i] != self.words[i] {
                return false;
            }
        }
        true
    }

    fn is_same(&self, other: &ThreadSet) -> bool
        ensures all { result ≡ true → (t : ℕ) → in_set self.now t ≡ in_set other.now t }
        ensures some { result ≡ false → (t : ℕ) × (in_set self.now t ≢ in_set other.now t) }
    {
        for i in 0..4 {
            if self.words[i] != other.words[i] {
                return false;
            }
        }
        true
    }
}
