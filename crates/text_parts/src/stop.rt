//! Where and why bytes are no text.

ghost use Rattle.std.specs.Prelude.{◌≡◌};
ghost use Rattle.text_parts.specs.declared.stop.ReadFail.TheVariants.{Memory, Stopped};
ghost use Rattle.text_parts.specs.Gives.{cause_of, IsPlaced};

use std::alloc::{AllocError, AllocFailed};

/// Why bytes are no text.
#[derive(Clone, Copy, Debug, PartialEq, Eq)]
pub enum TextCause {
    /// The bytes end within a text.
    End,
    /// A byte fits no text.
    Syntax,
}

/// None of the asked texts stands at the place. `at` is right before the first byte that fits none of them.
#[derive(Clone, Copy, Debug, PartialEq, Eq)]
pub struct TextStop {
    pub at: u64,
    pub cause: TextCause,
}

/// No text stands at the front of the bytes: so many bytes are left from the stop on.
#[derive(Clone, Copy, Debug, PartialEq, Eq)]
pub struct Stop {
    pub left: usize,
}

impl Stop {
    /// The bytes end at the stop, or a byte stands there that fits no text.
    pub fn cause(self) -> TextCause
        ensures { result ≡ cause_of self.left }
    {
        if self.left == 0 {
            TextCause::End
        } else {
            TextCause::Syntax
        }
    }

    /// The stop, counted from the front of so many bytes.
    pub fn placed(self, len: usize) -> TextStop
        ensures { IsPlaced len self result }
    {
        TextStop {
            at: len.saturating_sub(self.left) as u64,
            cause: self.cause(),
        }
    }
}

/// Why nothing was read: no text stands there, or memory was wanting.
#[derive(Debug, Drop)]
pub enum ReadFail {
    Stopped(Stop),
    Memory,
}

impl From<Stop> for ReadFail {
    ghost from_gives = { λ stop fail. fail ≡ Stopped stop };

    fn from(stop: Stop) -> ReadFail {
        ReadFail::Stopped(stop)
    }
}

impl From<AllocError> for ReadFail {
    ghost from_gives = { λ _ fail. fail ≡ Memory };

    fn from(_error: AllocError) -> ReadFail {
        ReadFail::Memory
    }
}

impl<T: Drop> From<AllocFailed<T>> for ReadFail {
    ghost from_gives = { λ _ fail. fail ≡ Memory };

    fn from(_error: AllocFailed<T>) -> ReadFail {
        ReadFail::Memory
    }
}
