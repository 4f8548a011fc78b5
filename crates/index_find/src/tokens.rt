//! Tokens, taken one by one.
ghost use Rattle.std.specs.Prelude.{◌≡◌, ◌≢◌, [], ◌∷◌, ◌++◌, List, reverse, IfOk, MatchBool, ◌<◌, vec_len};
ghost use Rattle.std.specs.Bool.{OnTrue};
ghost use Rattle.std.specs.Str.{str_to_ascii_lowercase};
ghost use Rattle.index_find.specs.Kinds.{kind_of};
ghost use Rattle.index_find.specs.declared.tokens.Pending.{Pending};
ghost use Rattle.index_find.specs.Taking.{Past, ended, pending_joined, steps_joined, before_term, after_term, took, state_of, Takes};

use crate::query::Step;
use crate::read::QueryFault;
use crate::token::{Kind, kind_of_token};
use firefly_outside::Text;
use std::alloc::{AllocError, Global};

/// What is to be done once a term or a part has ended.
#[derive(Clone, Copy, Debug, PartialEq, Eq)]
pub enum Pending {
    Not,
    Both,
    Either,
    /// A query in round brackets isn't closed yet.
    Open,
}

// Adds to what is pending.
fn put(pending: &mut Vec<Pending>, last: Pending) -> Result<(), AllocError>
    ensures { IfOk result (λ _. reverse pending.new.items ≡ last ∷ reverse pending.old.items) }
{
    pending.push(last)?;
    Ok(())
}

// Takes the last that is pending, where it is this one.
fn take_back(pending: &mut Vec<Pending>, wanted: Pending) -> bool
    ensures last { MatchBool result (reverse pending.old.items ≡ wanted ∷ reverse pending.new.items)
        ((pending.new.items ≡ pending.old.items) × ((ps : List Pending) → reverse pending.old.items ≢ wanted ∷ ps)) }
    ensures len { OnTrue result (vec_len pending.new < vec_len pending.old) }
{
    match pending.last() {
        Some(last) if *last == wanted => {
            pending.pop();
            true
        }
        _ => false,
    }
}

// A term has ended: negates it as often as is pending, and joins it to the terms before it.
fn end_term(pending: &mut Vec<Pending>, steps: &mut Vec<Step>) -> Result<(), AllocError>
    ensures { IfOk result (λ _. Past (reverse pending.new.items) steps.new.items ≡ ended (reverse pending.old.items) steps.old.items) }
{
    while take_back(pending, Pending::Not) {
        steps.push(Step::Not)?;
    }
    if take_back(pending, Pending::Both) {
        steps.push(Step::Both)?;
    }
    Ok(())
}

/// A part has ended: joins it to the parts before it.
pub fn end_part(pending: &mut Vec<Pending>, steps: &mut Vec<Step>) -> Result<(), AllocError>
    ensures pending { IfOk result (λ _. reverse pending.new.items ≡ pending_joined (reverse pending.old.items)) }
    ensures steps { IfOk result (λ _. steps.new.items ≡ steps_joined (reverse pending.old.items) steps.old.items) }
{
    if take_back(pending, Pending::Either) {
        steps.push(Step::Either)?;
    }
    Ok(())
}

// Adds the step of a word.
fn put_word(alloc: Global, steps: &mut Vec<Step>, word: &str) -> Result<(), AllocError>
    ensures { IfOk result (λ _. steps.new.items ≡ steps.old.items ++ Step.Word (str_to_ascii_lowercase word.now) ∷ []) }
{
    let mut text = String::from_str(alloc, word)?;
    text.make_ascii_lowercase();
    steps.push(Step::Word(Text::from_string(text)))?;
    Ok(())
}

// Takes a token that stands before a term or at its start, and says whether it ends one.
fn take_before(
    alloc: Global,
    pending: &mut Vec<Pending>,
    steps: &mut Vec<Step>,
    token: &str,
) -> Result<bool, QueryFault>
    ensures { Takes result (λ s. before_term (kind_of token.now) token.now (reverse pending.old.items) steps.old.items ≡ s)
        (reverse pending.new.items) steps.new.items }
{
    match kind_of_token(token) {
        Kind::Word => {
            put_word(alloc, steps, token)?;
            end_term(pending, steps)?;
            Ok(true)
        }
        Kind::Not => {
            put(pending, Pending::Not)?;
            Ok(false)
        }
        Kind::Open => {
            put(pending, Pending::Open)?;
            Ok(false)
        }
        _ => Err(QueryFault::NotAQuery),
    }
}

// Takes a token that stands after a term, and says whether it ends one.
fn take_after(
    pending: &mut Vec<Pending>,
    steps: &mut Vec<Step>,
    token: &str,
) -> Result<bool, QueryFault>
    ensures { Takes result (λ s. after_term (kind_of token.now) (reverse pending.old.items) steps.old.items ≡ s)
        (reverse pending.new.items) steps.new.items }
{
    match kind_of_token(token) {
        Kind::Both => {
            put(pending, Pending::Both)?;
            Ok(false)
        }
        Kind::Either => {
            end_part(pending, steps)?;
            put(pending, Pending::Either)?;
            Ok(false)
        }
        Kind::Close => {
            end_part(pending, steps)?;
            if !take_back(pending, Pending::Open) {
                return Err(QueryFault::NotAQuery);
            }
            end_term(pending, steps)?;
            Ok(true)
        }
        _ => Err(QueryFault::NotAQuery),
    }
}

/// Takes a token, and says whether it ends a term. `following` says whether the last one did.
pub fn take(
    alloc: Global,
    following: bool,
    pending: &mut Vec<Pending>,
    steps: &mut Vec<Step>,
    token: &str,
) -> Result<bool, QueryFault>
    ensures { Takes result (λ s. took (state_of following (reverse pending.old.items) steps.old.items) token.now ≡ s)
        (reverse pending.new.items) steps.new.items }
{
    if following {
        take_after(pending, steps, token)
    } else {
        take_before(alloc, pending, steps, token)
    }
}
