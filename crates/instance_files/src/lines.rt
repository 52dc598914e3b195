//! The lines of a file that aren't blank, one after the other.

ghost use Rattle.std.specs.Prelude.{◌≡◌, ◌≤◌, ◌<◌, ◌+◌, drop, length};
ghost use Rattle.instance_files.specs.Ahead.{Ahead, ahead, Gives, IsLineAt};

use crate::field::{Field, next_field};
use crate::fields::Fields;
use std::marker::Model;

/// The fields of a line, and the place behind the line.
#[derive(Drop)]
pub(crate) struct Line<'a> {
    pub fields: Fields<'a>,
    pub next: u64,
}

/// The fields of the line in which `from` stands, from there on.
fn read_line<'a>(bytes: &'a [u8], from: u64) -> Line<'a>
    requires { from ≤ length bytes.now }
    ensures { IsLineAt bytes.entry.now from result }
{
    let mut fields = Fields::new();
    let mut at = from;
    loop {
        match next_field(bytes, at) {
            Field::Found { start, end } => {
                fields.add(&bytes[start as usize..end as usize]);
                at = end;
            }
            Field::LineEnd { next } => return Line { fields, next },
            Field::FileEnd => {
                return Line {
                    fields,
                    next: bytes.len() as u64,
                };
            }
        }
    }
}

/// A line that isn't blank: its number in the file, and its fields.
#[derive(Drop)]
pub(crate) struct Row<'a> {
    pub line: u64,
    pub fields: Fields<'a>,
}

/// The next row, or the number behind that of the last line.
#[derive(Drop)]
pub(crate) enum Next<'a> {
    NextRow(Row<'a>),
    End { line: u64 },
}

/// Goes through the lines of a file.
#[derive(Drop)]
pub(crate) struct Lines<'a> {
    bytes: &'a [u8],
    at: u64,
    number: u64,
}

impl<'a> Model for Lines<'a> {
    ghost Value = { Ahead };

    ghost view = { λ lines. ahead lines.number (drop lines.at lines.bytes.now) };

    ghost invariant = { λ lines. (lines.at ≤ length lines.bytes.now) × (lines.number ≤ lines.at + 1) };
}

impl<'a> Lines<'a> {
    pub fn new(bytes: &'a [u8]) -> Lines<'a>
        ensures { result ≡ ahead 1 bytes.entry.now }
    {
        Lines {
            bytes,
            at: 0,
            number: 1,
        }
    }

    /// Goes to the next line that isn't blank.
    pub fn next_row(&mut self) -> Next<'a>
        ensures { Gives self.old self.new result }
    {
        while self.at < self.bytes.len() as u64 {
            let line = read_line(self.bytes, self.at);
            let is_blank = line.fields.is_empty();
            let number = self.number;
            self.at = line.next;
            self.number = number + 1;
            if !is_blank {
                return Next::NextRow(Row {
                    line: number,
                    fields: line.fields,
                });
            }
        }
        Next::End { line: self.number }
    }
}
