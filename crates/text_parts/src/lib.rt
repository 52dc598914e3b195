//! Texts that are read from the front and written at the end: words, decimal numbers, keywords, and lists whose
//! number of items stands before them.
//!
//! A reading finds the longest spelling that stands at the front of the bytes, or stops right before the first byte
//! that fits none. Each reader here gives what a function on lists of bytes gives (`specs/Reading.antt`); the laws of
//! those functions (`specs/Reads.antt`) hold for the parts and for whatever is made of them, so a format that is read
//! by these parts is read exactly. A cursor makes the same calls for readers that keep a place.
#![tactic(auto)]

ghost use Rattle.text_parts.specs.Laws.{WordsAreRead, NumbersAreRead, SignedNumbersAreRead};

mod cursor;
pub mod part;
pub mod reading;
mod stop;
pub mod writing;

pub use cursor::Cursor;
pub use stop::{ReadFail, Stop, TextCause, TextStop};

/// What is read from the front of bytes is the longest spelling there, and a stop is where no spelling goes on.
pub fn laws_of_readings()
    ensures words { WordsAreRead }
    ensures numbers { NumbersAreRead }
    ensures signed_numbers { SignedNumbersAreRead }
{}

#[cfg(test)]
mod tests;
