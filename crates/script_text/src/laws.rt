//! Laws of scripts.
ghost use Rattle.script_text.specs.Texts.{IsDecided};

/// The bytes of an input decide how it is read.
pub fn one_answer()
    ensures { IsDecided }
{}
