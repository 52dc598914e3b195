use crate::streams::read_front;
use crate::{FileStore, GetFail, MemSink, MemStore, OutSink, PutFail, Sink, SinkFail, Store};
use std::alloc::Global;
use std::fs;
use std::io::{self, ErrorKind, Read, Write};
use std::test::Fail;

/// The folder of a test, empty and new.
fn new_folder(rt: &HostRuntime, name: &str) -> Result<(), Fail> {
    let _ = fs::remove_dir_all(rt, name);
    fs::create_dir(rt, name)?;
    Ok(())
}

/// More bytes than are read at once.
fn many_bytes(alloc: Global) -> Result<Vec<u8>, Fail> {
    let mut bytes = Vec::new(alloc);
    for number in 0..10_000u32 {
        bytes.push((number % 251) as u8)?;
    }
    Ok(bytes)
}

#[test]
fn file_store_reads_and_writes_files(rt: HostRuntime) -> Result<(), Fail> {
    let folder = "edge_core_files";
    let name = "edge_core_files/a.op";
    new_folder(&rt, folder)?;
    let bytes = many_bytes(rt.alloc())?;
    let mut store = FileStore::new(&rt, rt.alloc());

    assert!(rt; store.put(name, &bytes) == Ok(()));
    assert!(rt; fs::read(&rt, name)?.as_slice() == bytes.as_slice());
    for limit in [0, 1, 4096, 4097, 9_999, 10_000, 20_000] {
        let start = &bytes[..limit.min(bytes.len())];
        match store.get(name, limit as u64) {
            Ok(read) => assert!(rt; read.as_slice() == start, "limit {limit}"),
            Err(_) => assert!(rt; false, "limit {limit}"),
        }
    }
    assert!(rt; store.put(name, b"10 1\n".as_slice()) == Ok(()));
    assert!(rt; fs::read(&rt, name)?.as_slice() == b"10 1\n".as_slice());
    for empty in [name, "edge_core_files/b.op"] {
        assert!(rt; store.put(empty, b"".as_slice()) == Ok(()));
        assert!(rt; fs::read(&rt, empty)?.is_empty(), "{empty}");
    }
    fs::remove_dir_all(&rt, folder)?;
    Ok(())
}

#[test]
fn file_store_fails_where_files_do(rt: HostRuntime) -> Result<(), Fail> {
    let folder = "edge_core_failing";
    new_folder(&rt, folder)?;
    let mut store = FileStore::new(&rt, rt.alloc());
    for name in ["edge_core_failing/missing", folder, ""] {
        assert!(rt;
            matches!(store.get(name, 10), Err(GetFail::Failed)),
            "get {name}"
        );
    }
    for name in ["edge_core_failing/no/folder", folder, "", "/dev/full"] {
        assert!(rt;
            store.put(name, b"x".as_slice()) == Err(PutFail::Failed),
            "put {name}"
        );
    }
    fs::remove_dir_all(&rt, folder)?;
    Ok(())
}

/// A writer that takes two bytes at a time, after each an interruption, until `room` is used up. Then it fails, or takes
/// nothing.
#[derive(Drop)]
struct Hesitant {
    taken: Vec<u8>,
    room: usize,
    interrupted: bool,
    fails: bool,
}

impl Hesitant {
    fn new(alloc: Global, room: usize, fails: bool) -> Hesitant {
        Hesitant {
            taken: Vec::new(alloc),
            room,
            interrupted: false,
            fails,
        }
    }
}

impl Write for Hesitant {
    fn write(&mut self, bytes: &[u8]) -> io::Result<usize> {
        self.interrupted = !self.interrupted;
        if self.interrupted {
            return Err(ErrorKind::Interrupted.into());
        }
        if self.room == 0 && self.fails {
            return Err(ErrorKind::Other.into());
        }
        let count = bytes.len().min(2).min(self.room);
        self.room -= count;
        match self.taken.extend_from_slice(&bytes[..count]) {
            Ok(()) => Ok(count),
            Err(_) => Err(ErrorKind::OutOfMemory.into()),
        }
    }

    fn flush(&mut self) -> io::Result<()> {
        Ok(())
    }
}

#[test]
fn out_sink_writes_all_or_fails(rt: HostRuntime) -> Result<(), Fail> {
    for (room, fails, expected) in [
        (5, true, Ok(())),
        (9, false, Ok(())),
        (4, true, Err(SinkFail::Failed)),
        (4, false, Err(SinkFail::Failed)),
        (0, true, Err(SinkFail::Failed)),
    ] {
        let mut writer = Hesitant::new(rt.alloc(), room, fails);
        let mut sink = OutSink::new(&mut writer);
        assert!(rt;
            sink.write_all(b"words".as_slice()) == expected,
            "room {room}"
        );
        let taken = &b"words".as_slice()[..room.min(5)];
        assert!(rt; writer.taken.as_slice() == taken, "room {room}");
    }
    Ok(())
}

/// A reader that gives two bytes at a time, before each an interruption. After the last it fails, or is at its end.
#[derive(Drop)]
struct HesitantReader<'a> {
    left: &'a [u8],
    interrupted: bool,
    fails: bool,
}

impl Read for HesitantReader<'_> {
    fn read(&mut self, buffer: &mut [u8]) -> io::Result<usize> {
        self.interrupted = !self.interrupted;
        if self.interrupted {
            return Err(ErrorKind::Interrupted.into());
        }
        if self.left.is_empty() && self.fails {
            return Err(ErrorKind::Other.into());
        }
        let count = buffer.len().min(2).min(self.left.len());
        buffer[..count].copy_from_slice(&self.left[..count]);
        self.left = &self.left[count..];
        Ok(count)
    }
}

#[test]
fn read_front_reads_to_the_limit_or_the_end(rt: HostRuntime) -> Result<(), Fail> {
    let words = b"words".as_slice();
    for (limit, fails, expected) in [
        (0, true, Some(0)),
        (3, true, Some(3)),
        (4, false, Some(4)),
        (5, true, Some(5)),
        (6, true, None),
        (6, false, Some(5)),
        (u64::MAX, false, Some(5)),
    ] {
        let mut reader = HesitantReader {
            left: words,
            interrupted: false,
            fails,
        };
        let read = read_front(rt.alloc(), &mut reader, limit);
        match (read, expected) {
            (Ok(bytes), Some(count)) => {
                assert!(rt; bytes.as_slice() == &words[..count], "limit {limit}");
                assert!(rt; reader.left == &words[count..], "limit {limit}");
            }
            (read, _) => {
                let failed = matches!(read, Err(GetFail::Failed));
                assert!(rt; failed && expected.is_none(), "limit {limit}");
            }
        }
    }
    Ok(())
}

#[test]
fn out_sink_over_a_file(rt: HostRuntime) -> Result<(), Fail> {
    let folder = "edge_core_stream";
    let name = "edge_core_stream/out";
    new_folder(&rt, folder)?;
    let mut sink = OutSink::new(fs::create(&rt, name)?);
    assert!(rt; sink.write_all(b"points 1\n".as_slice()) == Ok(()));
    assert!(rt; sink.write_all(b"".as_slice()) == Ok(()));
    assert!(rt; sink.write_all(b"boxes 0\n".as_slice()) == Ok(()));
    assert!(rt; fs::read(&rt, name)?.as_slice() == b"points 1\nboxes 0\n".as_slice());
    fs::remove_dir_all(&rt, folder)?;
    Ok(())
}

/// What a store in memory and a sink in memory do where nothing fails, and where calls are set to fail.
#[test]
fn small_surface(rt: HostRuntime) -> Result<(), Fail> {
    let mut store = MemStore::new(rt.alloc());
    assert!(rt; store.put("x", b"abc".as_slice()) == Ok(()));
    match store.get("x", u64::MAX) {
        Ok(bytes) => assert!(rt; bytes.as_slice() == b"abc".as_slice()),
        Err(_) => assert!(rt; false),
    }
    assert!(rt; matches!(store.get("y", 1), Err(GetFail::Failed)));
    store.fail_calls(&[1, 3])?;
    assert!(rt; matches!(store.get("x", 2), Err(GetFail::Failed)));
    assert!(rt; store.put("y", b"d".as_slice()) == Ok(()));
    assert!(rt; store.put("y", b"e".as_slice()) == Err(PutFail::Failed));

    let mut sink = MemSink::new(rt.alloc());
    sink.reserve(5)?;
    assert!(rt; sink.write_all(b"words".as_slice()) == Ok(()));
    sink.fail_after(2);
    assert!(rt; sink.write_all(b"more".as_slice()) == Err(SinkFail::Failed));
    assert!(rt; sink.written() == b"wordsmo".as_slice());
    Ok(())
}
