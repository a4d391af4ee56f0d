use ci_io::{
    FileShelf, MemShelf, MemSink, Shelf, ShelfErr, Sink, SinkErr, StdSink, SureShelf, SureSink,
};
use std::alloc::{AllocError, Global};
use std::collections::BTreeMap;
use std::fmt::Display;
use std::process::Abort;
use std::test::Fail;
use std::{fs, io};

// The map with one file, `a`, of four bytes.
fn one_file(alloc: Global) -> Result<BTreeMap<String, Vec<u8>>, AllocError> {
    let mut files = BTreeMap::new(alloc);
    let name = String::from_str(alloc, "a")?;
    files.insert(name, b"four".to_vec(alloc)?)?;
    Ok(files)
}

// An output that takes nothing.
struct Shut;

impl Print for Shut {
    fn print<D: Display + Drop>(&self, _value: D) -> io::Result<()> {
        Err(io::Error::from(io::ErrorKind::BrokenPipe))
    }

    fn println<D: Display + Drop>(&self, _value: D) -> io::Result<()> {
        Err(io::Error::from(io::ErrorKind::BrokenPipe))
    }

    fn write_all(&self, _bytes: &[u8]) -> io::Result<()> {
        Err(io::Error::from(io::ErrorKind::BrokenPipe))
    }
}

// Asserts what a read gives.
fn expect_read(
    rt: &impl Abort,
    alloc: Global,
    shelf: &mut impl Shelf,
    name: &str,
    limit: u64,
    wanted: &[u8],
) -> Result<(), ShelfErr> {
    let bytes = shelf.read(alloc, name, limit)?;
    assert!(rt; bytes.as_slice() == wanted);
    Ok(())
}

// Asserts how a read fails.
fn expect_no_read(
    rt: &impl Abort,
    alloc: Global,
    shelf: &mut impl Shelf,
    name: &str,
    limit: u64,
    wanted: ShelfErr,
) {
    assert!(rt; shelf.read(alloc, name, limit).err() == Some(wanted));
}

// Reads and writes on the map with one file.
fn reads_and_writes(rt: &impl Abort, alloc: Global, shelf: &mut SureShelf) -> Result<(), ShelfErr> {
    expect_read(rt, alloc, shelf, "a", 4, b"four")?;
    expect_no_read(rt, alloc, shelf, "a", 3, ShelfErr::TooLarge);
    expect_no_read(rt, alloc, shelf, "b", 4, ShelfErr::Absent);
    shelf.write(alloc, "b", b"")?;
    shelf.write(alloc, "a", b"other")?;
    expect_read(rt, alloc, shelf, "a", u64::MAX, b"other")?;
    expect_read(rt, alloc, shelf, "b", 0, b"")?;
    assert!(rt; shelf.files().len() == 2);
    Ok(())
}

#[test]
fn sure_shelf_reads_and_writes(rt: HostRuntime) -> Result<(), Fail> {
    let alloc = rt.alloc();
    let mut shelf = SureShelf::new(one_file(alloc)?);
    let outcome = reads_and_writes(&rt, alloc, &mut shelf);
    drop(shelf);
    outcome?;
    Ok(())
}

#[test]
fn sure_sink_takes_all(rt: HostRuntime) -> Result<(), Fail> {
    let mut sink = SureSink::new(rt.alloc());
    sink.put(b"one ")?;
    sink.put(b"")?;
    sink.put(b"two")?;
    assert!(rt; sink.taken() == b"one two".as_slice());
    Ok(())
}

// Calls of which the second fails.
fn second_fails(rt: &impl Abort, alloc: Global, shelf: &mut MemShelf) -> Result<(), ShelfErr> {
    expect_read(rt, alloc, shelf, "a", 4, b"four")?;
    let failed = shelf.write(alloc, "a", b"two");
    assert!(rt; failed == Err(ShelfErr::Fault));
    expect_read(rt, alloc, shelf, "a", 4, b"four")?;
    shelf.write(alloc, "a", b"two")?;
    expect_read(rt, alloc, shelf, "a", 4, b"two")
}

#[test]
fn mem_shelf_fails_at_the_second_call(rt: HostRuntime) -> Result<(), Fail> {
    let alloc = rt.alloc();
    let mut shelf = MemShelf::new(one_file(alloc)?, vec![in alloc; 2]?);
    let outcome = second_fails(&rt, alloc, &mut shelf);
    drop(shelf);
    outcome?;
    Ok(())
}

#[test]
fn mem_sink_fails_at_the_first_call(rt: HostRuntime) -> Result<(), Fail> {
    let alloc = rt.alloc();
    let mut sink = MemSink::new(alloc, vec![in alloc; 1]?);
    assert!(rt; sink.put(b"one").err() == Some(SinkErr::Fault));
    assert!(rt; sink.taken().len() == 0);
    sink.put(b"two")?;
    assert!(rt; sink.taken() == b"two".as_slice());
    Ok(())
}

#[test]
fn file_shelf_reads_and_writes_files(rt: HostRuntime) -> Result<(), Fail> {
    let alloc = rt.alloc();
    let name = "ci_io-file-shelf-test";
    let mut shelf = FileShelf::new(&rt);
    shelf.write(alloc, name, b"longer")?;
    shelf.write(alloc, name, b"four")?;
    expect_read(&rt, alloc, &mut shelf, name, 4, b"four")?;
    expect_read(&rt, alloc, &mut shelf, name, u64::MAX, b"four")?;
    expect_no_read(&rt, alloc, &mut shelf, name, 3, ShelfErr::TooLarge);
    fs::remove_file(&rt, name)?;
    expect_no_read(&rt, alloc, &mut shelf, name, 4, ShelfErr::Fault);
    expect_no_read(&rt, alloc, &mut shelf, ".", 4, ShelfErr::Fault);
    let failed = shelf.write(alloc, ".", b"four");
    assert!(rt; failed == Err(ShelfErr::Fault));
    Ok(())
}

#[test]
fn std_sink_writes_or_fails(rt: HostRuntime) -> Result<(), Fail> {
    StdSink::new(&rt).put(b"written\n")?;
    assert!(rt; StdSink::new(&Shut).put(b"lost").err() == Some(SinkErr::Fault));
    Ok(())
}
