use crate::{
    Field, FileCause, FileFail, Format, default_scale, laws_of_files, next_field, read_coordinate,
    read_count, read_instance, read_value,
};
use fixed_num::Scale;
use std::alloc::{AllocError, Global};
use std::test::*;

#[test]
fn windows_and_decimals(rt: HostRuntime) -> Result<(), Fail> {
    let scale = default_scale(Format::Toptw);
    let early =
        b"1 1 2 1\n0 0\n0 40.00 50.00 0.00 0.00 0 0 0 1236\n1 45.00 68.00 90.00 10.00 1 1 1 912 916.9\n2 45.00 70.00 90.00 30.00 1 1 1 825 870\n";
    let bytes =
        b"1 1 2 1\n0 0\n0 40.00 50.00 0.00 0.00 0 0 0 1236\n1 45.00 68.00 90.00 10.00 1 1 1 912 967\n2 45.00 70.00 90.00 30.00 1 1 1 825 870\n";
    let instance = read_instance(rt.alloc(), bytes, Format::Toptw, scale, None)?;
    assert!(rt; instance.calls() == 2);
    assert!(rt; instance.team() == 1);
    assert!(rt; instance.scale() == Scale::Ten);
    assert!(rt; instance.length(0, 1) == 186);
    assert!(rt; instance.length(0, 2) == 206);
    assert!(rt; instance.length(1, 2) == 20);
    assert!(rt; instance.length(0, 3) == 0);
    assert!(rt; instance.x(1) == 450_000);
    assert!(rt; instance.y(2) == 700_000);
    assert!(rt; instance.score(1) == 10);
    assert!(rt; instance.service(2) == 900);
    assert!(rt; instance.opening(1) == 9120);
    assert!(rt; instance.closing(1) == 9670);
    assert!(rt; instance.closing(3) == 12_360);
    assert!(rt; instance.clock_step(8250, 2, 1) == Some(9170));
    assert!(rt; instance.clock_step(9120, 1, 2) == None);
    let instance = read_instance(rt.alloc(), early, Format::Toptw, scale, None)?;
    assert!(rt; instance.calls() == 2);
    assert!(rt; instance.clock_step(8250, 2, 1) == None);
    Ok(())
}

#[test]
fn top_with_tabs_and_line_ends(rt: HostRuntime) -> Result<(), Fail> {
    let scale = default_scale(Format::Top);
    let bytes =
        b"n\t4\r\nm\t1\r\ntmax\t7.5\r\n0.0\t0.0\t0\r\n1.5\t2.0\t10\r\n3.0\t0.0\t15\r\n3.0\t4.0\t0\r\n\r\n";
    let instance = read_instance(rt.alloc(), bytes, Format::Top, scale, None)?;
    assert!(rt; instance.calls() == 2);
    assert!(rt; instance.team() == 1);
    assert!(rt; instance.scale() == Scale::Hundred);
    assert!(rt; instance.length(0, 1) == 250);
    assert!(rt; instance.length(1, 3) == 250);
    assert!(rt; instance.length(2, 3) == 400);
    assert!(rt; instance.score(2) == 15);
    assert!(rt; instance.closing(3) == 750);
    assert!(rt; instance.clock_step(300, 2, 3) == Some(700));
    assert!(rt; instance.clock_step(501, 1, 3) == None);
    Ok(())
}

#[test]
fn places_in_order(rt: HostRuntime) -> Result<(), Fail> {
    let bytes = b"\n 10 99 \n\n0 0 x\n0 1 y\n3 -0.00009 5\n0 4 7";
    let scale = default_scale(Format::Op);
    let instance = read_instance(rt.alloc(), bytes, Format::Op, scale, Some(3))?;
    assert!(rt; scale == Scale::Hundred);
    assert!(rt; instance.calls() == 2);
    assert!(rt; instance.team() == 3);
    assert!(rt; instance.y(0) == 0);
    assert!(rt; instance.x(1) == 30_000);
    assert!(rt; instance.y(1) == 0);
    assert!(rt; instance.y(2) == 40_000);
    assert!(rt; instance.y(3) == 10_000);
    assert!(rt; instance.score(2) == 7);
    assert!(rt; instance.score(3) == 0);
    assert!(rt; instance.closing(0) == 1000);
    Ok(())
}

/// What is told of a file that is read at scale 1, and none where it is an instance.
fn failure(alloc: Global, format: Format, bytes: &[u8]) -> Option<FileFail> {
    match read_instance(alloc, bytes, format, Scale::One, None) {
        Ok(_) => None,
        Err(fail) => Some(fail),
    }
}

#[test]
fn decimals_and_floored_lengths(rt: HostRuntime) {
    let bytes = b"10 1\n0 0 0\n0 0 0\n3 0 10.5\n0 4 7\n";
    let wanted = Some(FileFail::Refused {
        line: 4,
        cause: FileCause::Score,
    });
    assert!(rt; failure(rt.alloc(), Format::Op, bytes) == wanted);
}

/// A case: a file, and the line and the cause of its refusal, with line 0 where it is an instance.
type Case<'a> = (&'a [u8], u64, FileCause);

/// What is told of a case.
fn wanted(line: u64, cause: FileCause) -> Option<FileFail> {
    if line == 0 {
        return None;
    }
    Some(FileFail::Refused { line, cause })
}

/// Cases of files of the profile `op`.
const OP_CAUSES: &[Case<'static>] = &[
    (b"", 1, FileCause::Head),
    (b"\n \t\r\n\r", 4, FileCause::Head),
    (b"\n10\n", 2, FileCause::Head),
    (b"10 1 2\n", 1, FileCause::Head),
    (b"1x 0\n", 1, FileCause::Number),
    (b"10 1\r1\n", 1, FileCause::Number),
    (
        b"10 00000000000000000000000000000000000000001\n",
        1,
        FileCause::Number,
    ),
    (b"-1 1\n", 1, FileCause::OutOfRange),
    (b"100000001 1\n", 1, FileCause::OutOfRange),
    (b"10 1000000000\n", 1, FileCause::OutOfRange),
    (b"10 0\n", 1, FileCause::Team),
    (b"10 33\n", 1, FileCause::Team),
    (b"10 1.5\n", 1, FileCause::Team),
    (b"10 1\n\n0 0\n", 3, FileCause::Fields),
    (b"10 1\n0 0 0\n0 0 0 0\n", 3, FileCause::Fields),
    (
        b"10 1\n0 0 0\n0 0 0\n1 2 3 4 5 6 7 8 9\n",
        4,
        FileCause::Fields,
    ),
    (b"10 1\n+ 0 0\n", 2, FileCause::Number),
    (b"10 1\n0 y 0\n", 2, FileCause::Number),
    (b"10 1\n0 0 x\n0 0 y\n0 0 z\n", 4, FileCause::Number),
    (b"10 1\n100000.0001 0 0\n", 2, FileCause::OutOfRange),
    (b"10 1\n0 -100001 0\n", 2, FileCause::OutOfRange),
    (
        b"10 1\n0 0 0\n0 0 0\n0 0 1000000000\n",
        4,
        FileCause::OutOfRange,
    ),
    (
        b"10 1\n0 0 0\n0 0 0\n0 0 1\n\n0 0 -1\n",
        6,
        FileCause::Score,
    ),
    (b"10 1\n0 0 0\n0 0 0\n0 0 100001\n", 4, FileCause::Score),
    (b"10 1\n0 0 0\n0 0 0\n0 0 1.00001\n", 4, FileCause::Score),
    (b"10 1\n0 100001 0\n0 x 0\n", 2, FileCause::OutOfRange),
    (b"10 1", 2, FileCause::RowCount),
    (b"10 1\n0 0 0", 3, FileCause::RowCount),
    (b"10 1\n0 0 0\n", 3, FileCause::RowCount),
    (b"10 1\n0 0 0\n\n\n", 5, FileCause::RowCount),
];

#[test]
fn each_cause_in_op(rt: HostRuntime) {
    for (bytes, line, cause) in OP_CAUSES {
        let told = failure(rt.alloc(), Format::Op, bytes);
        assert!(rt; told == wanted(*line, *cause), "at {line}");
    }
}

/// Cases of files of the profile `top`.
const TOP_CAUSES: &[Case<'static>] = &[
    (b"", 1, FileCause::Head),
    (b"n 4 5\n", 1, FileCause::Head),
    (b"N 4\n", 1, FileCause::Head),
    (b"n\n", 1, FileCause::Head),
    (b"n x\n", 1, FileCause::Number),
    (b"n 1000000000\n", 1, FileCause::OutOfRange),
    (b"n 2.5\n", 1, FileCause::Head),
    (b"n -3\n", 1, FileCause::Head),
    (b"n 1\n", 1, FileCause::Head),
    (b"n 303\n", 1, FileCause::TooMany),
    (b"n 302\n", 2, FileCause::Head),
    (b"n 2\n\ntmax 9\n", 3, FileCause::Head),
    (b"n 2\nm\n", 2, FileCause::Head),
    (b"n 2\nm 1e1\n", 2, FileCause::Number),
    (b"n 2\nm 9999999999\n", 2, FileCause::OutOfRange),
    (b"n 2\nm 0\n", 2, FileCause::Team),
    (b"n 2\nm 1\n", 3, FileCause::Head),
    (b"n 2\nm 1\ntma 9\n", 3, FileCause::Head),
    (b"n 2\nm 1\ntmax 9 9\n", 3, FileCause::Head),
    (b"n 2\nm 1\ntmax -\n", 3, FileCause::Number),
    (b"n 2\nm 1\ntmax -1\n", 3, FileCause::OutOfRange),
    (b"n 2\nm 1\ntmax 9\n0 0\n", 4, FileCause::Fields),
    (
        b"n 2\nm 1\ntmax 9\n0 0 0\n0 0 0 0 0 0 0 0\n",
        5,
        FileCause::Fields,
    ),
    (b"n 2\nm 1\ntmax 9\n0 0,5 0\n", 4, FileCause::Number),
    (b"n 3\nm 1\ntmax 9\n0 0 x\n0 0 x\n", 5, FileCause::Number),
    (b"n 2\nm 1\ntmax 9\n-100001 0 0\n", 4, FileCause::OutOfRange),
    (
        b"n 3\nm 1\ntmax 9\n0 0 0\n0 0 1000000000\n",
        5,
        FileCause::OutOfRange,
    ),
    (b"n 3\nm 1\ntmax 9\n0 0 0\n0 0 0.5\n", 5, FileCause::Score),
    (b"n 3\nm 1\ntmax 9\n0 0 0\n0 0 1\n0 0 x", 0, FileCause::Head),
    (
        b"n 2\nm 1\ntmax 9\n0 0 0\n1 1 0\nx\n",
        6,
        FileCause::RowCount,
    ),
    (b"n 2\nm 1\ntmax 9", 4, FileCause::RowCount),
    (b"n 2\nm 1\ntmax 9\n0 0 0\n\n", 6, FileCause::RowCount),
    (
        b"n\t5\r\nm\t1\r\ntmax\t7.5\r\n0.0\t0.0\t0\r\n1.5\t2.0\t10\r\n3.0\t0.0\t15\r\n3.0\t4.0\t0\r\n\r\n",
        9,
        FileCause::RowCount,
    ),
    (b"n 2\r\r\n", 1, FileCause::Number),
    (b"\t\nn 2 \r\n \r\nm 40", 4, FileCause::Team),
];

#[test]
fn each_cause_in_top(rt: HostRuntime) {
    for (bytes, line, cause) in TOP_CAUSES {
        let told = failure(rt.alloc(), Format::Top, bytes);
        assert!(rt; told == wanted(*line, *cause), "at {line}");
    }
}

/// Cases of files of the profile `toptw`.
const TOPTW_CAUSES: &[Case<'static>] = &[
    (b"", 1, FileCause::Head),
    (b"\n5\n", 2, FileCause::Head),
    (b"0 1\n", 2, FileCause::Head),
    (b"0 1 9 9\n\n \n", 4, FileCause::Head),
    (b"z 1..\n", 1, FileCause::Number),
    (b"0 1000000000\n", 1, FileCause::OutOfRange),
    (b"0 0 9 9\n", 1, FileCause::Team),
    (b"0 32.0 9 9\nx\n", 3, FileCause::RowCount),
    (b"0 1\nx", 3, FileCause::RowCount),
    (b"0 1\nx\n0 0 0 0 0 5\n", 3, FileCause::Fields),
    (b"0 1\nx\n0 0 0 0 0 0 5\n0 0 0\n", 4, FileCause::Fields),
    (b"0 1\nx\nz x 0 0 0 0 5\n", 3, FileCause::Number),
    (b"0 1\nx\n0 0 x 0 0 0 5\n", 3, FileCause::Number),
    (
        b"0 1\nx\n0 0 0 x x 0 5\n0 0 0 x 0 0 5\n",
        4,
        FileCause::Number,
    ),
    (
        b"0 1\nx\n0 0 0 x x 0 5\n0 0 0 0 x 0 5\n",
        4,
        FileCause::Number,
    ),
    (b"0 1\nx\n0 0 0 0 0 x 5\n", 3, FileCause::Number),
    (b"0 1\nx\n0 0 0 0 0 9 x\n", 3, FileCause::Number),
    (
        b"0 1\nx\n0 100000.0001 0 0 0 0 5\n",
        3,
        FileCause::OutOfRange,
    ),
    (b"0 1\nx\n0 0 -100001 0 0 0 5\n", 3, FileCause::OutOfRange),
    (
        b"0 1\nx\n0 0 0 0 0 0 5\n0 0 0 -1 0 0 5\n",
        4,
        FileCause::OutOfRange,
    ),
    (
        b"0 1\nx\n0 0 0 0 0 0 5\n0 0 0 0 1000000000 0 5\n",
        4,
        FileCause::OutOfRange,
    ),
    (b"0 1\nx\n0 0 0 0 0 -0.0001 5\n", 3, FileCause::OutOfRange),
    (b"0 1\nx\n0 0 0 0 0 9 100000001\n", 3, FileCause::OutOfRange),
    (b"0 1\nx\n0 0 0 0 0 9 -1\n", 3, FileCause::OutOfRange),
    (
        b"0 1\nx\n0 0 0 0 0 0 5\n0 0 0 0 0.5 9 5\n",
        4,
        FileCause::Score,
    ),
    (
        b"0 1\nx\n0 0 0 0 0 0 5\n0 0 0 0 -1 9 5\n",
        4,
        FileCause::Score,
    ),
    (b"0 1\nx\n0 0 0 0 0 5 4\n", 3, FileCause::Window),
    (b"0 1\nx\n0 0 0 0 0 5.5 5.4\n", 3, FileCause::Window),
    (
        b"0 1\nx\n0 0 0 0 0 0 9\n\n0 0 0 0 0 z z z 9 0\n",
        5,
        FileCause::Window,
    ),
    (b"0 1\nx\n0 0 0 0 0 5.00009 5\n", 0, FileCause::Window),
    (
        b"0 1\nx\n0 0 0 0 0 z z z 0 9\r\n0\t0\t0\t0\t0\t0\t0\r\n",
        0,
        FileCause::Window,
    ),
    (b"0 1\nx\n0 0 0 x -1 0 9", 0, FileCause::Score),
];

#[test]
fn each_cause_in_toptw(rt: HostRuntime) {
    for (bytes, line, cause) in TOPTW_CAUSES {
        let told = failure(rt.alloc(), Format::Toptw, bytes);
        assert!(rt; told == wanted(*line, *cause), "at {line}");
    }
}

/// A file with so many rows of one kind.
fn many_rows(alloc: Global, head: &[u8], row: &[u8], count: u64) -> Result<Vec<u8>, AllocError> {
    let mut bytes = Vec::new(alloc);
    bytes.extend_from_slice(head)?;
    for _ in 0..count {
        bytes.extend_from_slice(row)?;
    }
    Ok(bytes)
}

#[test]
fn most_rows_and_one_more(rt: HostRuntime) -> Result<(), Fail> {
    let cases: [(Format, &[u8], &[u8], u64, u64, FileCause); 3] = [
        (
            Format::Op,
            b"10 1\n",
            b"0 0 0\n",
            302,
            304,
            FileCause::TooMany,
        ),
        (
            Format::Top,
            b"n 302\nm 1\ntmax 9\n",
            b"0 0 0\n",
            302,
            306,
            FileCause::RowCount,
        ),
        (
            Format::Toptw,
            b"0 1\nx\n",
            b"0 0 0 0 0 0 9\n",
            301,
            304,
            FileCause::TooMany,
        ),
    ];
    for (format, head, row, most, line, cause) in cases {
        let mut bytes = many_rows(rt.alloc(), head, row, most)?;
        assert!(rt; failure(rt.alloc(), format, bytes.as_slice()) == None);
        bytes.extend_from_slice(b"x")?;
        assert!(rt;
            failure(rt.alloc(), format, bytes.as_slice()) == Some(FileFail::Refused { line, cause })
        );
    }
    Ok(())
}

#[test]
fn single_fields(rt: HostRuntime) {
    laws_of_files();
    let bytes = b" ab\t c\r\n\r\nd";
    assert!(rt; next_field(bytes, 0) == Field::Found { start: 1, end: 3 });
    assert!(rt; next_field(bytes, 2) == Field::Found { start: 2, end: 3 });
    assert!(rt; next_field(bytes, 3) == Field::Found { start: 5, end: 6 });
    assert!(rt; next_field(bytes, 6) == Field::LineEnd { next: 8 });
    assert!(rt; next_field(bytes, 7) == Field::LineEnd { next: 8 });
    assert!(rt; next_field(bytes, 8) == Field::LineEnd { next: 10 });
    assert!(rt; next_field(bytes, 10) == Field::Found { start: 10, end: 11 });
    assert!(rt; next_field(bytes, 11) == Field::FileEnd);
    assert!(rt; next_field(b"a\r", 1) == Field::FileEnd);
    assert!(rt; next_field(b"\r \r\r", 0) == Field::Found { start: 0, end: 1 });
    assert!(rt; read_value(b"12.349", Scale::Ten) == Ok(123));
    assert!(rt; read_value(b"100000.00009", Scale::Thousand) == Ok(100_000_000));
    assert!(rt; read_value(b"-0.00001", Scale::One) == Ok(0));
    assert!(rt; read_value(b"-.0001", Scale::One) == Err(FileCause::OutOfRange));
    assert!(rt; read_coordinate(b"-100000.00009") == Ok(-1_000_000_000));
    assert!(rt; read_coordinate(b"100000.0001") == Err(FileCause::OutOfRange));
    assert!(rt; read_coordinate(b"") == Err(FileCause::Number));
    assert!(rt; read_count(b"+032.0") == Ok(32));
    assert!(rt; read_count(b"1.00001") == Err(FileCause::Team));
}

#[test]
fn long_lines(rt: HostRuntime) -> Result<(), Fail> {
    let row = many_rows(rt.alloc(), b"0 1\nx\n0 0 0 0 0", b" z", 100_000)?;
    assert!(rt;
        failure(rt.alloc(), Format::Toptw, row.as_slice())
            == Some(FileFail::Refused {
                line: 3,
                cause: FileCause::Number
            })
    );
    assert!(rt;
        failure(rt.alloc(), Format::Op, row.as_slice())
            == Some(FileFail::Refused {
                line: 2,
                cause: FileCause::Fields
            })
    );
    Ok(())
}
