//! Reads and writes in memory as tables, and each other kind once.
use job_io::{
    FileShelf, MemShelf, MemSink, Shelf, ShelfFault, Sink, SinkFailed, StdSink, SureShelf,
    SureSink, put_all,
};
use std::alloc::Global;
use std::fs;
use std::test::Fail;

// Two files, of which the first stands twice.
fn pairs(alloc: Global) -> Result<Vec<(String, Vec<u8>)>, Fail> {
    let mut pairs = Vec::new(alloc);
    for (name, bytes) in [("a", "first"), ("b", ""), ("a", "second")] {
        pairs.push((
            String::from_str(alloc, name)?,
            bytes.as_bytes().to_vec(alloc)?,
        ))?;
    }
    Ok(pairs)
}

// The bytes of a read, or its fault.
fn answer(read: &Result<Vec<u8>, ShelfFault>) -> Result<&[u8], ShelfFault> {
    match read {
        Ok(bytes) => Ok(bytes.as_slice()),
        Err(fault) => Err(*fault),
    }
}

#[test]
fn reads_by_number(rt: HostRuntime) -> Result<(), Fail> {
    let alloc = rt.alloc();
    let mut shelf = MemShelf::new(pairs(alloc)?, [2, 4].to_vec(alloc)?);
    let first: &[u8] = b"first";
    for (name, limit, wanted) in [
        ("a", 5, Ok(first)),
        ("a", 5, Err(ShelfFault::Failed)),
        ("a", 4, Err(ShelfFault::TooLong { limit: 4 })),
        ("c", 4, Err(ShelfFault::Failed)),
        ("c", 4, Err(ShelfFault::Absent)),
        ("b", 0, Ok(&first[..0])),
    ] {
        let read = shelf.read(alloc, name, limit);
        assert_eq!(rt; answer(&read), wanted, "{name} within {limit}");
    }
    Ok(())
}

#[test]
fn reads_surely(rt: HostRuntime) -> Result<(), Fail> {
    let alloc = rt.alloc();
    let mut shelf = SureShelf::new(pairs(alloc)?);
    let first: &[u8] = b"first";
    assert_eq!(rt; answer(&shelf.read(alloc, "a", 5)), Ok(first));
    assert_eq!(rt; answer(&shelf.read(alloc, "c", 5)), Err(ShelfFault::Absent));
    Ok(())
}

#[test]
fn writes_by_number(rt: HostRuntime) -> Result<(), Fail> {
    let alloc = rt.alloc();
    let mut sink = MemSink::new(alloc, [1, 4].to_vec(alloc)?, 5)?;
    for (piece, wanted) in [
        ("abc", Err(SinkFailed)),
        ("abc", Ok(3)),
        ("", Ok(0)),
        ("", Err(SinkFailed)),
        ("def", Ok(2)),
        ("g", Err(SinkFailed)),
        ("", Ok(0)),
    ] {
        assert_eq!(rt; sink.write(piece.as_bytes()), wanted, "{piece}");
    }
    assert_eq!(rt; sink.bytes(), b"abcde".as_slice());
    Ok(())
}

#[test]
fn puts_all_or_a_prefix(rt: HostRuntime) -> Result<(), Fail> {
    let alloc = rt.alloc();
    for (room, failing, wanted, written) in [
        (6, 9, Ok(()), "abcdef"),
        (4, 9, Err(SinkFailed), "abcd"),
        (0, 9, Err(SinkFailed), ""),
        (6, 1, Err(SinkFailed), ""),
    ] {
        let mut sink = MemSink::new(alloc, [failing].to_vec(alloc)?, room)?;
        assert_eq!(rt; put_all(&mut sink, b"abcdef"), wanted, "room {room}");
        assert_eq!(rt; sink.bytes(), written.as_bytes(), "room {room}");
        assert_eq!(rt; put_all(&mut sink, b""), Ok(()), "room {room}");
    }
    assert_eq!(rt; put_all(&mut SureSink::new(), b"abcdef"), Ok(()));
    Ok(())
}

#[test]
fn reads_files(rt: HostRuntime) -> Result<(), Fail> {
    let alloc = rt.alloc();
    let mut long = Vec::new(alloc);
    long.resize(10_000, 7u8)?;
    fs::write(&rt, "long", &long)?;
    fs::write(&rt, "empty", &[])?;
    let mut shelf = FileShelf::new(&rt);
    for (name, limit, wanted) in [
        ("long", 10_000, Ok(long.as_slice())),
        ("long", 9_999, Err(ShelfFault::TooLong { limit: 9_999 })),
        ("empty", 10_000, Ok(&long[..0])),
        ("short", 10_000, Err(ShelfFault::Absent)),
        (".", 10_000, Err(ShelfFault::Failed)),
    ] {
        let read = shelf.read(alloc, name, limit);
        assert_eq!(rt; answer(&read), wanted, "{name} within {limit}");
    }
    Ok(())
}

#[test]
fn writes_to_standard_output(rt: HostRuntime) -> Result<(), Fail> {
    let mut sink = StdSink::new(&rt);
    assert_eq!(rt; sink.write(b""), Ok(0));
    assert_eq!(rt; put_all(&mut sink, b"written\n"), Ok(()));
    Ok(())
}
