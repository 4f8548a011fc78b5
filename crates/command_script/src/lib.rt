//! What a command promises of an input that is to be a script.
//!
//! Promises: the definitions say when an input is read as a script, why another isn't (specs/Refusals.antt), and which status the bytes of
//! an input decide, for any command that reads a script (specs/Decided.antt); the lemmas prove that for each answer of `read_script`.
//! Stands on script_text and command_endings. It has no code, and knows nothing of what is done with a script.
#![tactic(auto)]
