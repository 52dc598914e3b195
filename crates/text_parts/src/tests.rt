ghost use Rattle.std.specs.Prelude.{◌≡◌, ◌^◌, ◌-◌, ◌<◌, codes, decimal, ℕ, Bool, true, false};
ghost use Rattle.text_parts.specs.Reading.{U64, ended_number_at};
ghost use Rattle.text_parts.specs.Texts.{ended_number};
ghost use Rattle.text_parts.specs.Place.{Continues};

use super::*;
use crate::part::{ReadPart, Words, counted, find_word};
use crate::reading::{ended_number, signed};
use crate::writing::{WritePart, put_counted, put_ended, put_signed};
use std::alloc::{AllocError, Global};
use std::test::*;

/// A number and a semicolon.
struct Count;

impl ReadPart for Count {
    type Value = u64;

    ghost reading = { ended_number_at U64 (codes ";") };

    fn read(_alloc: Global, bytes: &[u8]) -> Result<(u64, &[u8]), ReadFail> {
        Ok(ended_number(bytes, u64::MAX, b";")?)
    }
}

impl WritePart for Count {
    type Value = u64;

    ghost text = { ended_number (codes ";") };

    ghost valid = { λ n. n < 2 ^ 64 };

    fn write(value: &u64, out: &mut Vec<u8>) -> Result<(), AllocError> {
        put_ended(out, *value, b";")
    }
}

/// Calls of a cursor, one behind the other, are read as their parts are.
#[tactic(auto, unfolding(crate::specs::Reading::ended_number_at))]
fn ended(cursor: &mut Cursor<'_>, max: u64, end: &[u8]) -> Result<u64, TextStop>
    ensures { Continues (ended_number_at max end.now) cursor.old cursor.new result }
{
    let n = cursor.number(max)?;
    cursor.word(end)?;
    Ok(n)
}

/// Yes or no, where the two words begin alike.
struct Answer;

impl Words for Answer {
    type Value = bool;

    ghost word = { λ b. elim b [ true ↦ codes "note" | false ↦ codes "no." ] };

    fn word(value: bool) -> &'static [u8] {
        match value {
            true => b"note",
            false => b"no.",
        }
    }
}

#[test]
fn parts_are_read_and_written(rt: HostRuntime) -> Result<(), Fail> {
    let mut out = Vec::new(rt.alloc());
    put_counted::<Count>(&mut out, b"n ", &[7, 0])?;
    put_signed(&mut out, -40)?;
    assert!(rt; out.as_slice() == b"n 2\n7;0;-40".as_slice());
    let read = counted::<Count>(rt.alloc(), out.as_slice(), b"n ");
    let Ok((items, rest)) = read else {
        return Err("no list".into());
    };
    assert!(rt; items.as_slice() == [7, 0].as_slice());
    assert_eq!(rt; rest.len(), 3);
    let Ok((number, rest)) = signed(rest) else {
        return Err("no number".into());
    };
    assert_eq!(rt; (number, rest.len()), (-40, 0));
    Ok(())
}

#[test]
fn words_stop_at_the_farthest(rt: HostRuntime) {
    let cases: [(&[u8], Result<(bool, usize), usize>); 5] = [
        (b"note!", Ok((true, 1))),
        (b"no.", Ok((false, 0))),
        (b"not", Err(0)),
        (b"no", Err(0)),
        (b"nine", Err(3)),
    ];
    for (bytes, want) in cases {
        let found = match find_word::<Answer>(bytes, &[false, true]) {
            Ok((answer, rest)) => Ok((answer, rest.len())),
            Err(stop) => Err(stop.left),
        };
        assert!(rt; found == want);
    }
}

#[test]
fn a_cursor_moves_and_stops(rt: HostRuntime) {
    let mut cursor = Cursor::new(b"day 12 -7\n45");
    let syntax = |at| TextStop {
        at,
        cause: TextCause::Syntax,
    };
    let end = |at| TextStop {
        at,
        cause: TextCause::End,
    };
    assert_eq!(rt; cursor.word(b"day "), Ok(()));
    assert_eq!(rt; cursor.number(31), Ok(12));
    assert_eq!(rt; cursor.at(), 6);
    assert_eq!(rt; cursor.number(31), Err(syntax(6)));
    assert_eq!(rt; cursor.word(b" 1"), Err(syntax(7)));
    assert_eq!(rt; cursor.word(b" "), Ok(()));
    assert_eq!(rt; cursor.signed(), Ok(-7));
    assert_eq!(rt; cursor.word(b"\n456"), Err(end(12)));
    assert_eq!(rt; cursor.word(b"\n"), Ok(()));
    assert_eq!(rt; cursor.number(31), Ok(4));
    assert_eq!(rt; cursor.number(0), Err(syntax(11)));
    assert_eq!(rt; cursor.number(5), Ok(5));
    assert_eq!(rt; cursor.signed(), Err(end(12)));
    let mut cursor = Cursor::new(b"3 4;");
    assert_eq!(rt; ended(&mut cursor, 9, b" "), Ok(3));
    assert_eq!(rt; ended(&mut cursor, 9, b" "), Err(syntax(3)));
}
