//! Paths, lists, and the edges to the outside.

use fk_base::{
    Bytes, Clock, MemSink, MemSource, Names, NoMemory, Numbers, Path, Paths, RealClock, SetClock,
    StdSink, StdSource, Text, WriteAll, read_all, write_all,
};
use std::alloc::Global;
use std::test::Fail;

fn fills_bytes(alloc: Global) -> Result<bool, NoMemory> {
    let mut bytes = Bytes::from_slice(alloc, b"ab")?;
    bytes.push(b'c')?;
    bytes.append(b"de")?;
    Ok(bytes.copy()?.as_slice() == b"abcde".as_slice())
}

fn fills_text(alloc: Global) -> Result<bool, NoMemory> {
    let mut text = Text::from_str(alloc, "one")?;
    text.push_str(" two")?;
    Ok(text.copy()?.as_str() == "one two")
}

fn fills_numbers(alloc: Global) -> Result<bool, NoMemory> {
    let mut numbers = Numbers::from_slice(alloc, &[1, 2])?;
    numbers.push(3)?;
    Ok(numbers.copy()?.as_slice() == [1, 2, 3].as_slice())
}

fn fills_names(alloc: Global) -> Result<bool, NoMemory> {
    let mut names = Names::from_slice(alloc, &[Text::from_str(alloc, "two")?])?;
    names.push(Text::from_str(alloc, "three")?)?;
    names.insert(0, Text::from_str(alloc, "one")?)?;
    Ok(names.copy()?.len() == 3)
}

fn fills_paths(alloc: Global) -> Result<bool, NoMemory> {
    let mut paths = Paths::new(alloc);
    paths.push(Path::root(alloc))?;
    Ok(paths.copy()?.len() == 1)
}

#[test]
fn fills_lists(rt: HostRuntime) -> Result<(), Fail> {
    assert!(rt; fills_bytes(rt.alloc())?);
    assert!(rt; fills_text(rt.alloc())?);
    assert!(rt; fills_numbers(rt.alloc())?);
    assert!(rt; fills_names(rt.alloc())?);
    assert!(rt; fills_paths(rt.alloc())?);
    Ok(())
}

/// Whether a path is written as the text that was read.
fn is_written_back(alloc: Global, text: &str) -> Result<bool, Fail> {
    let path = Path::parse(alloc, text)?;
    Ok(path.text()?.as_str() == text)
}

#[test]
fn reads_paths(rt: HostRuntime) -> Result<(), Fail> {
    for text in ["/", "/a.b/-", "/...", "/\u{A0}", "/\u{E9}/\u{4E2D}"] {
        assert!(rt; is_written_back(rt.alloc(), text)?, "at {text}");
    }
    Ok(())
}

/// Whether a path is the parent of its child.
fn goes_down_and_up(path: &Path) -> Result<bool, Fail> {
    let child = path.child("c")?;
    Ok(match child.parent()? {
        Some(parent) => parent.same(path),
        None => false,
    })
}

#[test]
fn derives_paths(rt: HostRuntime) -> Result<(), Fail> {
    assert!(rt; goes_down_and_up(&Path::root(rt.alloc()))?);
    Ok(())
}

/// How many bytes are read from memory.
fn reads_memory(alloc: Global, bytes: &[u8]) -> Result<usize, NoMemory> {
    let mut source = MemSource::new(alloc, bytes, &[])?;
    match read_all(alloc, &mut source) {
        Ok(read) => Ok(read.len()),
        Err(_) => Ok(0),
    }
}

/// Whether bytes are written into memory.
fn writes_memory(alloc: Global, bytes: &[u8]) -> Result<bool, NoMemory> {
    let mut sink = MemSink::new(alloc, bytes.len(), &[])?;
    let end = write_all(&mut sink, bytes);
    Ok(end == WriteAll::Done && sink.as_slice() == bytes)
}

#[test]
fn stands_on_memory(rt: HostRuntime) -> Result<(), Fail> {
    assert_eq!(rt; reads_memory(rt.alloc(), b"some bytes")?, 10);
    assert!(rt; writes_memory(rt.alloc(), b"some bytes")?);
    Ok(())
}

/// Whether the bytes of a reader come through, and reach a writer.
fn passes_on(alloc: Global, bytes: &[u8]) -> Option<bool> {
    let read = read_all(alloc, &mut StdSource::new(bytes)).ok()?;
    let mut written = Vec::new(alloc);
    let end = write_all(&mut StdSink::new(&mut written), &read);
    Some(end == WriteAll::Done && written.as_slice() == bytes)
}

#[test]
fn stands_on_readers_and_writers(rt: HostRuntime) {
    assert_eq!(rt; passes_on(rt.alloc(), b"some bytes"), Some(true));
}

#[test]
fn clocks_stay_or_go_on(rt: HostRuntime) {
    assert_eq!(rt; SetClock::new(5).now(), 5);
    let clock = RealClock::new(rt);
    let early = clock.now();
    assert!(rt; early <= clock.now());
}
