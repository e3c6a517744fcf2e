//! One call of each kind, and faults in mid-stream.
use plat_base::{List, OutOfMemory};
use plat_io::{
    Failed, MemorySink, MemorySource, QuietSink, QuietSource, ReadStop, Sink, Source, StdSink,
    StdSource, Word, WriteFault, read_all, write_all, write_line, write_list_line,
};
use std::alloc::Global;
use std::io;
use std::io::{Read, Write};
use std::test::Fail;

/// The list of one call that fails.
fn only(alloc: Global, call: u32) -> Result<List<u32>, OutOfMemory> {
    let mut fails = List::with_room(alloc, 1)?;
    fails.push(call);
    Ok(fails)
}

fn a_quiet_source_gives(alloc: Global, text: &[u8]) -> Result<bool, Fail> {
    let mut source = QuietSource::new(alloc, text)?;
    let whole = source.left() == text;
    Ok(whole && read_all(alloc, &mut source, 7)?.as_slice() == text)
}

#[test]
fn quiet_source_gives_all(rt: HostRuntime) -> Result<(), Fail> {
    assert!(rt; a_quiet_source_gives(rt.alloc(), b"nodes 2")?);
    Ok(())
}

#[test]
fn one_byte_above_the_limit_is_too_long(rt: HostRuntime) -> Result<(), Fail> {
    let mut source = QuietSource::new(rt.alloc(), b"nodes 2\nend\n")?;
    let stop = read_all(rt.alloc(), &mut source, 7).err();
    assert_eq!(rt; stop, Some(ReadStop::TooLong));
    assert_eq!(rt; source.left(), b"end\n".as_slice());
    Ok(())
}

#[test]
fn memory_source_gives_all(rt: HostRuntime) -> Result<(), Fail> {
    let mut source = MemorySource::new(rt.alloc(), b"nodes 2", List::new(rt.alloc()))?;
    let bytes = read_all(rt.alloc(), &mut source, 100)?;
    assert_eq!(rt; bytes.as_slice(), b"nodes 2".as_slice());
    Ok(())
}

#[test]
fn memory_source_fails_in_mid_stream(rt: HostRuntime) -> Result<(), Fail> {
    let mut source = MemorySource::new(rt.alloc(), b"nodes 2", only(rt.alloc(), 2)?)?;
    let stop = read_all(rt.alloc(), &mut source, 100).err();
    assert_eq!(rt; stop, Some(ReadStop::ReadFault));
    Ok(())
}

#[test]
fn memory_sink_takes_all(rt: HostRuntime) -> Result<(), Fail> {
    let mut sink = MemorySink::new(rt.alloc(), 9, List::new(rt.alloc()))?;
    write_line(&mut sink, &[Word::Text(b"init"), Word::Number(7)])?;
    assert_eq!(rt; sink.bytes(), b"init 7\n".as_slice());
    Ok(())
}

fn a_line_breaks_off(alloc: Global) -> Result<bool, Fail> {
    let mut sink = MemorySink::new(alloc, 9, only(alloc, 2)?)?;
    let fails = write_line(&mut sink, &[Word::Text(b"init"), Word::Number(7)]) == Err(WriteFault);
    Ok(fails && sink.bytes() == b"init".as_slice())
}

#[test]
fn memory_sink_fails_in_mid_stream(rt: HostRuntime) -> Result<(), Fail> {
    assert!(rt; a_line_breaks_off(rt.alloc())?);
    Ok(())
}

fn a_full_quiet_sink_fails(alloc: Global) -> Result<bool, Fail> {
    let mut sink = QuietSink::new(alloc, 4)?;
    write_all(&mut sink, b"end\n")?;
    Ok(sink.write(b"x") == Err(Failed))
}

fn a_full_memory_sink_fails(alloc: Global) -> Result<bool, Fail> {
    let mut sink = MemorySink::new(alloc, 2, List::new(alloc))?;
    let fails = write_all(&mut sink, b"end\n") == Err(WriteFault);
    Ok(fails && sink.bytes() == b"en".as_slice())
}

#[test]
fn full_sinks_fail(rt: HostRuntime) -> Result<(), Fail> {
    assert!(rt; a_full_quiet_sink_fails(rt.alloc())?);
    assert!(rt; a_full_memory_sink_fails(rt.alloc())?);
    Ok(())
}

#[test]
fn lines_of_words_and_numbers(rt: HostRuntime) -> Result<(), Fail> {
    let mut sink = QuietSink::new(rt.alloc(), 100)?;
    write_line(
        &mut sink,
        &[
            Word::Text(b"move"),
            Word::Lettered(b'r', 1),
            Word::Lettered(b'r', 15),
        ],
    )?;
    write_list_line(
        &mut sink,
        &[Word::Text(b"schedule"), Word::Text(b"list")],
        &[0, 10, 4294967295],
    )?;
    write_line(&mut sink, &[])?;
    assert_eq!(rt;
        sink.bytes(),
        b"move r1 r15\nschedule list 0 10 4294967295\n\n".as_slice()
    );
    Ok(())
}

/// A reader and writer that always fails.
#[derive(Drop)]
struct Broken;

impl Read for Broken {
    fn read(&mut self, _buf: &mut [u8]) -> io::Result<usize> {
        Err(io::Error::from(io::ErrorKind::BrokenPipe))
    }
}

impl Write for Broken {
    fn write(&mut self, _buf: &[u8]) -> io::Result<usize> {
        Err(io::Error::from(io::ErrorKind::BrokenPipe))
    }

    fn flush(&mut self) -> io::Result<()> {
        Ok(())
    }
}

#[test]
fn std_reader_is_a_source(rt: HostRuntime) -> Result<(), Fail> {
    let mut source = StdSource::new(b"pages 1\n".as_slice());
    assert_eq!(rt;
        read_all(rt.alloc(), &mut source, 100)?.as_slice(),
        b"pages 1\n".as_slice()
    );
    let mut broken = StdSource::new(Broken);
    assert_eq!(rt; broken.read(&mut [0; 4]), Err(Failed));
    Ok(())
}

fn a_writer_takes_all(alloc: Global) -> Result<bool, Fail> {
    let mut held = Vec::new(alloc);
    let mut sink = StdSink::new(&mut held);
    write_all(&mut sink, b"pages ")?;
    write_all(&mut sink, b"1\n")?;
    Ok(held.as_slice() == b"pages 1\n".as_slice())
}

#[test]
fn std_writer_is_a_sink(rt: HostRuntime) -> Result<(), Fail> {
    assert!(rt; a_writer_takes_all(rt.alloc())?);
    let mut short = [0; 2];
    let mut full = StdSink::new(short.as_mut_slice());
    assert!(rt; write_all(&mut full, b"abc") == Err(WriteFault));
    let mut broken = StdSink::new(Broken);
    assert!(rt; broken.write(b"x") == Err(Failed));
    Ok(())
}
