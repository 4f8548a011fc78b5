//! Numbers of threads and places, as words of a command line say them.
ghost use Rattle.std.specs.Prelude.{◌≡◌, ◌≤◌, ◌<◌, ◌+◌, ℕ, IfNone, IfSome};
ghost use Rattle.bench_workloads.specs.Numbers.{IsWordOf};

/// A number of threads that a package can have.
#[derive(Clone, Copy)]
pub struct Count {
    pub number: u32,
    ghost in_package: { (1 ≤ number) × (number ≤ 64) },
}

/// Numbers of threads of two kinds, at least one of each, that a package can have.
#[derive(Clone, Copy)]
pub struct Sides {
    pub first: u32,
    pub second: u32,
    ghost in_package: { (1 ≤ first) × (1 ≤ second) × (first + second ≤ 64) },
}

/// A number of places that a buffer can have.
#[derive(Clone, Copy)]
pub struct Capacity {
    pub number: u32,
    ghost in_buffer: { (1 ≤ number) × (number ≤ 4096) },
}

// The number that the word is, if it lies from `least` to `most`.
fn number_of(word: &str, least: u32, most: u32) -> Option<u32>
    ensures number { IfSome result (IsWordOf least most word.now) }
    ensures none { IfNone result ((n : ℕ) → ¬ (IsWordOf least most word.now n)) }
{
    match word.parse::<u32>() {
        Ok(number) if least <= number && number <= most => Some(number),
        _ => None,
    }
}

impl Count {
    pub const ONE: Count = Count { number: 1 };

    pub const TWO: Count = Count { number: 2 };

    /// Reads a number from 1 to 64.
    pub fn read(word: &str) -> Option<Count>
        ensures number { IfSome result (λ c. IsWordOf 1 64 word.now c.number) }
        ensures none { IfNone result ((n : ℕ) → ¬ (IsWordOf 1 64 word.now n)) }
    {
        let number = number_of(word, 1, 64)?;
        Some(Count { number })
    }

    /// Reads a number from 1 to 63, and returns one more.
    pub fn read_and_one(word: &str) -> Option<Count>
        ensures number { IfSome result (λ c. (n : ℕ) × IsWordOf 1 63 word.now n × (c.number ≡ n + 1)) }
        ensures none { IfNone result ((n : ℕ) → ¬ (IsWordOf 1 63 word.now n)) }
    {
        let number = number_of(word, 1, 63)?;
        Some(Count { number: number + 1 })
    }
}

impl Sides {
    /// Reads two numbers of at least 1 that are at most 64 together.
    pub fn read(first: &str, second: &str) -> Option<Sides>
        ensures numbers { IfSome result (λ s. IsWordOf 1 63 first.now s.first × IsWordOf 1 63 second.now s.second) }
        ensures none { IfNone result ((m n : ℕ) → IsWordOf 1 63 first.now m → IsWordOf 1 63 second.now n → 64 < m + n) }
    {
        let first = number_of(first, 1, 63)?;
        let second = number_of(second, 1, 63)?;
        if first + second <= 64 {
            Some(Sides { first, second })
        } else {
            None
        }
    }
}

impl Capacity {
    /// Reads a number from 1 to 4,096.
    pub fn read(word: &str) -> Option<Capacity>
        ensures number { IfSome result (λ c. IsWordOf 1 4096 word.now c.number) }
        ensures none { IfNone result ((n : ℕ) → ¬ (IsWordOf 1 4096 word.now n)) }
    {
        let number = number_of(word, 1, 4096)?;
        Some(Capacity { number })
    }
}
