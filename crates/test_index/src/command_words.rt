//! What is made of words. Words that name no command, and commands of one word, are in runs/,
//! without a proof. Those after `sample` are here, since the program answers usage to each of them.
use command_line::{Command, IndexOptions, WordsFault, read_words};
use std::alloc::{AllocError, Global};

fn strings(alloc: Global, words: &[&str]) -> Result<Vec<String>, AllocError> {
    let mut strings = Vec::new(alloc);
    for word in words {
        strings.push(String::from_str(alloc, word)?)?;
    }
    Ok(strings)
}

fn says(alloc: Global, words: &[&str], command: Command) -> Result<bool, AllocError> {
    let strings = strings(alloc, words)?;
    Ok(read_words(alloc, strings.as_slice()) == Ok(command))
}

fn is_usage(alloc: Global, words: &[&str]) -> Result<bool, AllocError> {
    let strings = strings(alloc, words)?;
    Ok(read_words(alloc, strings.as_slice()) == Err(WordsFault::Usage))
}

fn defaults(dir: &str) -> IndexOptions {
    IndexOptions {
        dir,
        walkers: 2,
        parsers: 4,
        mergers: 2,
        stop_after: None,
    }
}

#[test]
fn options_stand_in_any_order_in_one_word_or_two(rt: HostRuntime) -> Result<(), AllocError> {
    let alloc = rt.alloc();
    let all = IndexOptions {
        dir: "proj",
        walkers: 3,
        parsers: 8,
        mergers: 1,
        stop_after: Some(0),
    };
    let words = [
        "index",
        "--walkers",
        "3",
        "proj",
        "--parsers=8",
        "--stop-after",
        "0",
        "--mergers=1",
    ];
    assert!(rt; says(alloc, &words, Command::Index(all))?);
    assert!(rt; says(alloc, &["trace", "./-x"], Command::Trace(defaults("./-x")))?);
    assert!(rt; says(alloc, &["index", "help"], Command::Index(defaults("help")))?);
    Ok(())
}

#[test]
fn sample_takes_a_seed_and_a_number_of_files(rt: HostRuntime) -> Result<(), AllocError> {
    let alloc = rt.alloc();
    let greatest = Command::Sample {
        seed: u64::MAX,
        files: 20_000,
    };
    let words = ["sample", "18446744073709551615", "20000"];
    assert!(rt; says(alloc, &words, greatest)?);
    assert!(rt; is_usage(alloc, &["sample", "18446744073709551616", "1"])?);
    assert!(rt; is_usage(alloc, &["sample", "0", "20001"])?);
    assert!(rt; is_usage(alloc, &["sample", "0", "0"])?);
    assert!(rt; is_usage(alloc, &["sample", "1"])?);
    Ok(())
}
