//! A cursor over text: the calls that other formats are read by.

ghost use Rattle.std.specs.Prelude.{◌≡◌};

use crate::reading::{number, signed, word};
use crate::stop::TextStop;
use std::marker::Model;

/// Bytes, and a place in them. A call asks for a text at the place, moves behind the longest that stands there, or
/// stays and says where the bytes stop being the beginning of one.
#[derive(Drop)]
pub struct Cursor<'a> {
    bytes: &'a [u8],
    at: usize,
}

impl<'a> Model for Cursor<'a> {
    ghost use Rattle.std.specs.Prelude.{◌≤◌, length};
    ghost use Rattle.text_parts.specs.Place.{Place};

    ghost Value = { Place };

    ghost view = { λ c. record { bytes = c.bytes.now; at = c.at } };

    ghost invariant = { λ c. c.at ≤ length c.bytes.now };
}

impl<'a> Cursor<'a> {
    ghost use Rattle.std.specs.Prelude.{◌≡◌, ◌≤◌, IfOk};
    ghost use Rattle.text_parts.specs.Reading.{word_at, number_at, signed_at};
    ghost use Rattle.text_parts.specs.Texts.{WordText, NumberText, SignedText};
    ghost use Rattle.text_parts.specs.Place.{Asks, Continues};

    /// A cursor at the front of the bytes.
    pub fn new(bytes: &'a [u8]) -> Cursor<'a>
        ensures { result ≡ record { bytes = bytes.now; at = 0 } }
    {
        Cursor { bytes, at: 0 }
    }

    /// The place: how many bytes lie before it.
    pub fn at(&self) -> u64
        ensures { result ≡ self.now.at }
    {
        self.at as u64
    }

    /// Asks for the text.
    pub fn word(&mut self, text: &[u8]) -> Result<(), TextStop>
        ensures asked { Asks (WordText text.now) self.old self.new result }
        ensures reading { Continues (word_at text.now) self.old self.new result }
    {
        match word(&self.bytes[self.at..], text) {
            Ok(rest) => {
                self.at = self.bytes.len().saturating_sub(rest.len());
                Ok(())
            }
            Err(stop) => Err(stop.placed(self.bytes.len())),
        }
    }

    /// Asks for a number from 0 to `max`, in digits without a leading zero.
    pub fn number(&mut self, max: u64) -> Result<u64, TextStop>
        ensures asked { Asks (NumberText max) self.old self.new result }
        ensures reading { Continues (number_at max) self.old self.new result }
    {
        match number(&self.bytes[self.at..], max) {
            Ok((n, rest)) => {
                self.at = self.bytes.len().saturating_sub(rest.len());
                Ok(n)
            }
            Err(stop) => Err(stop.placed(self.bytes.len())),
        }
    }

    /// Asks for a number from -2^63 to 2^63 - 1, in digits without a leading zero, behind a minus where it is below 0.
    pub fn signed(&mut self) -> Result<i64, TextStop>
        ensures asked { Asks SignedText self.old self.new result }
        ensures reading { Continues signed_at self.old self.new result }
    {
        match signed(&self.bytes[self.at..]) {
            Ok((n, rest)) => {
                self.at = self.bytes.len().saturating_sub(rest.len());
                Ok(n)
            }
            Err(stop) => Err(stop.placed(self.bytes.len())),
        }
    }
}
