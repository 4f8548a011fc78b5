//! The tokens of a query.
ghost use Rattle.std.specs.Prelude.{◌≡◌};
ghost use Rattle.std.specs.List.{list_all};
ghost use Rattle.index_find.specs.Grammar.{is_word_byte, is_word};
ghost use Rattle.index_find.specs.Kinds.{kind_of};

/// What a token is.
#[derive(Clone, Copy, Debug)]
pub enum Kind {
    Word,
    Not,
    Both,
    Either,
    Open,
    Close,
    /// None of a query's.
    Other,
}

/// How long a word is at most.
const LONGEST_WORD: usize = 64;

// Whether the byte may stand in a word.
fn is_in_word(byte: u8) -> bool
    ensures { result ≡ is_word_byte byte }
{
    byte.is_ascii_alphanumeric() || byte == b'_'
}

// Whether all bytes may stand in a word.
fn are_in_word(bytes: &[u8]) -> bool
    ensures { result ≡ list_all is_word_byte bytes.now }
{
    bytes.iter().all(|byte| is_in_word(*byte))
}

// Whether the token is a word.
fn is_a_word(token: &str) -> bool
    ensures { result ≡ is_word token.now }
{
    let bytes = token.as_bytes();
    1 <= bytes.len() && bytes.len() <= LONGEST_WORD && are_in_word(bytes)
}

/// What the token is.
pub fn kind_of_token(token: &str) -> Kind
    ensures { result ≡ kind_of token.now }
{
    if is_a_word(token) {
        return Kind::Word;
    }
    if token == "!" {
        return Kind::Not;
    }
    if token == "&" {
        return Kind::Both;
    }
    if token == "|" {
        return Kind::Either;
    }
    if token == "(" {
        return Kind::Open;
    }
    if token == ")" {
        return Kind::Close;
    }
    Kind::Other
}
