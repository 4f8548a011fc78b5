//! Laws of index texts.
ghost use Rattle.index_text.specs.Laws.{IndexTextsAreRead, NumeralsArePrinted, TextsArePrinted, TextsReadAsOne};

/// The text of an index of files is an index text, and reads as the rows and skipped paths of that index.
///
/// The paths of the files are UTF-8 and not empty, and the files and the bytes of each are fewer than 2 to the power of 64.
pub fn an_index_text_is_read()
    ensures { IndexTextsAreRead }
{}

/// A text reads as one index: rows and skipped paths that it reads as are the only ones.
pub fn a_text_reads_as_one()
    ensures { TextsReadAsOne }
{}

/// The text of rows with fewer files than 2 to the power of 64 each is the one that an index is printed as.
pub fn a_text_is_the_printed_one()
    ensures { TextsArePrinted }
{}

/// The digits of a number of 64 bits are those that it is printed as.
pub fn a_numeral_is_the_printed_one()
    ensures { NumeralsArePrinted }
{}
