//! A query.
ghost use Rattle.std.specs.Prelude.{◌≡◌};
ghost use Rattle.index_find.specs.Asked.{is_word_step, is_not_step};

use firefly_outside::Text;
use std::marker::Model;

/// One step of a query.
#[derive(Debug, Drop)]
pub enum Step {
    /// The files that have this word, which is in lower case.
    Word(Text),
    /// The files that the last step didn't give.
    Not,
    /// The files that the last two steps both gave.
    Both,
    /// The files that either of the last two steps gave.
    Either,
}

/// A query, which contracts see as its steps.
#[derive(Debug, Drop)]
pub struct Query {
    steps: Vec<Step>,
}

impl Model for Query {
    ghost use Rattle.std.specs.Prelude.{◌≡◌, List};
    ghost use Rattle.index_find.specs.declared.query.Step.{Step};
    ghost use Rattle.index_find.specs.Postfix.{postfix, tree_of};

    ghost Value = { List Step };

    ghost view = { λ q. q.steps.items };

    ghost invariant = { λ q. q.steps.items ≡ postfix (tree_of q.steps.items) };
}

// Whether the step gives the files of this word.
fn names(step: &Step, word: &[u8]) -> bool
    ensures { result ≡ is_word_step word.now step.now }
{
    match step {
        Step::Word(text) => text.as_str().as_bytes() == word,
        _ => false,
    }
}

// Whether the step gives what the last one didn't.
fn turns(step: &Step) -> bool
    ensures { result ≡ is_not_step step.now }
{
    match step {
        Step::Not => true,
        _ => false,
    }
}

impl Query {
    ghost use Rattle.index_find.specs.Postfix.{postfix, tree_of};
    ghost use Rattle.index_find.specs.Asked.{asks_for, negates};

    // The query that these steps are.
    pub(crate) fn of(steps: Vec<Step>) -> Query
        requires { steps.items ≡ postfix (tree_of steps.items) }
        ensures { result ≡ steps.items }
    {
        Query { steps }
    }

    /// Shows the steps.
    pub fn steps(&self) -> &[Step]
        ensures steps { result.now ≡ self.now }
        ensures whole { self.now ≡ postfix (tree_of self.now) }
    {
        self.steps.as_slice()
    }

    /// Whether it asks for the files of this word.
    pub fn asks_for(&self, word: &[u8]) -> bool
        ensures { result ≡ asks_for word.now self.now }
    {
        for step in &self.steps {
            if names(step, word) {
                return true;
            }
        }
        false
    }

    /// Whether it has a `!`.
    pub fn negates(&self) -> bool
        ensures negates { result ≡ negates self.now }
        ensures whole { self.now ≡ postfix (tree_of self.now) }
    {
        for step in &self.steps {
            if turns(step) {
                return true;
            }
        }
        false
    }
}
