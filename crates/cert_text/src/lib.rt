//! The text of a certificate, read and written exactly.
//!
//! `specs/Text.antt` defines the one text of a certificate, from certificates to bytes. Reading goes the other way: it
//! answers the certificate whose text the bytes are, or refuses them right where they stop being the beginning of some
//! certificate's text. The crate stands on `orienteering`, whose record is what a certificate is seen as, and on
//! `text_parts`, whose readings and laws it is made of.
#![tactic(auto)]

ghost use Rattle.cert_text.specs.Refusal.{HasOneText, BeginsNoOther, StopsWhereNoneGoesOn};

mod cert;
mod head;
mod line;
mod node;
mod reading;
mod writing;

pub use cert::Cert;
pub use orienteering::Node;
pub use reading::{TextFail, read_cert};
pub use text_parts::{Cursor, TextCause, TextStop};
pub use writing::write_cert;

/// The laws of the texts. No two certificates have the same text, and no text is a proper front of another. Bytes that
/// are no text have a place up to which they can be completed to one, and no further.
pub fn laws_of_texts()
    ensures one { HasOneText }
    ensures no_front { BeginsNoOther }
    ensures stops { StopsWhereNoneGoesOn }
{}

#[cfg(test)]
mod tests;
