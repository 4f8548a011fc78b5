//! A tree of as many files as are wanted, from a number.
ghost use Rattle.std.specs.Prelude.{◌≡◌, ◌≤◌, ◌<◌, ◌+◌, ◌%◌, ◌++◌, [], map, IfOk, OnOk};
ghost use Rattle.std.specs.List.{range_with_len};
ghost use Rattle.firefly_outside.specs.Samples.{sample_word, sample_line, sample_bytes, dir_count, HasSamples, IsSampleTree};
ghost use Rattle.firefly_outside.specs.Seen.{tree_of, weak_of, calls_of, faults_of, no_calls, IsEqualBut};

use crate::{MemTree, Text};
use std::alloc::{AllocError, Global};

// The numbers of words are below this.
const NUMBERS: u32 = 499;

// The words in the order of their numbers.
fn sample_words(alloc: Global) -> Result<Vec<Text>, AllocError>
    ensures { IfOk result (λ v. v.items ≡ map sample_word (range_with_len 0 499)) }
{
    let mut words = Vec::with_capacity(alloc, NUMBERS as usize)?;
    for n in 0..NUMBERS {
        words.push(Text::from_string(format!(in alloc; "w{n}")?))?;
    }
    Ok(words)
}

// Adds a line to a file's bytes.
fn push_line(
    bytes: &mut Vec<u8>,
    words: &[Text],
    seed: u64,
    file: u32,
    line: u32,
) -> Result<(), AllocError>
    requires words { words.now ≡ map sample_word (range_with_len 0 499) }
    requires file { file < 20000 }
    requires line { line < 7 }
    ensures { OnOk result (bytes.new.items ≡ bytes.old.items ++ sample_line seed file line) }
{
    let first = (seed % 1000) as u32 + 31 * file + 17 * line;
    for q in 0..7 {
        push_word(bytes, words, first + q * q)?;
        bytes.push(b' ')?;
    }
    push_word(bytes, words, first + 49)?;
    bytes.push(b'\n')?;
    Ok(())
}

// Adds the word of a number.
fn push_word(bytes: &mut Vec<u8>, words: &[Text], number: u32) -> Result<(), AllocError>
    requires { words.now ≡ map sample_word (range_with_len 0 499) }
    ensures { OnOk result (bytes.new.items ≡ bytes.old.items ++ sample_word (number % 499)) }
{
    let word = &words[(number % NUMBERS) as usize];
    bytes.extend_from_slice(word.as_str().as_bytes())
}

// The bytes of a file.
fn sample_file(alloc: Global, words: &[Text], seed: u64, file: u32) -> Result<Vec<u8>, AllocError>
    requires words { words.now ≡ map sample_word (range_with_len 0 499) }
    requires file { file < 20000 }
    ensures { IfOk result (λ v. v.items ≡ sample_bytes seed file) }
{
    let lines = 1 + ((seed % 1000) as u32 + file) % 7;
    let mut bytes = Vec::with_capacity(alloc, lines as usize * 40)?;
    for line in 0..lines {
        push_line(&mut bytes, words, seed, file, line)?;
    }
    Ok(bytes)
}

// Adds the directory of a file, if it is the first of a hundred.
fn add_sample_dir(tree: &mut MemTree, alloc: Global, seed: u64, file: u32) -> Result<(), AllocError>
    requires file { file < 20000 }
    requires before { HasSamples seed (dir_count file) file (tree_of tree.old) }
    ensures after { OnOk result (HasSamples seed (dir_count (file + 1)) file (tree_of tree.new)) }
    ensures others { OnOk result (IsEqualBut tree.old tree.new) }
{
    if file % 100 != 0 {
        return Ok(());
    }
    let dir = file / 100;
    let path = format!(in alloc; "sample/d{dir}")?;
    tree.add_dir(path.as_str())
}

// Adds a file to its directory.
fn add_sample_file(
    tree: &mut MemTree,
    alloc: Global,
    words: &[Text],
    seed: u64,
    file: u32,
) -> Result<(), AllocError>
    requires words { words.now ≡ map sample_word (range_with_len 0 499) }
    requires file { file < 20000 }
    requires before { HasSamples seed (dir_count (file + 1)) file (tree_of tree.old) }
    ensures after { OnOk result (HasSamples seed (dir_count (file + 1)) (file + 1) (tree_of tree.new)) }
    ensures others { OnOk result (IsEqualBut tree.old tree.new) }
{
    let dir = file / 100;
    let bytes = sample_file(alloc, words, seed, file)?;
    let path = format!(in alloc; "sample/d{dir}/f{file}")?;
    tree.add_file(path.as_str(), bytes)
}

/// The sample tree of 1 to 20,000 files, with no call made and no path that is to fail. A hundred files are in each directory, each of
/// one to seven lines of eight words.
pub fn sample_tree(alloc: Global, seed: u64, files: u32) -> Result<MemTree, AllocError>
    requires some { 1 ≤ files }
    requires few { files ≤ 20000 }
    ensures tree { IfOk result (λ m. IsSampleTree seed files (tree_of m)) }
    ensures calls { IfOk result (λ m. calls_of m ≡ no_calls) }
    ensures weak { IfOk result (λ m. weak_of m ≡ []) }
    ensures faults { IfOk result (λ m. faults_of m ≡ 0) }
{
    let words = sample_words(alloc)?;
    let mut tree = MemTree::new(alloc);
    tree.add_dir("sample")?;
    for file in 0..files {
        add_sample_dir(&mut tree, alloc, seed, file)?;
        add_sample_file(&mut tree, alloc, &words, seed, file)?;
    }
    Ok(tree)
}
