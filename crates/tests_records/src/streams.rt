// Streams over the readers and writers of std.
use rt_streams::{Gate, OpenGate, Reading, Sink, Source, Writing, read_all, write_all};
use std::alloc::Global;
use std::io::{self, BufWriter, ErrorKind, Read};
use std::test::Fail;

const TEXT: &[u8] = b"some";

// Whether all that is left of a source, at most 4 bytes, is the text.
fn reads<S: Source>(alloc: Global, source: &mut S) -> bool {
    read_all(alloc, source, 4).is_ok_and(|bytes| bytes.as_slice() == TEXT)
}

// A reader that is interrupted before each read.
#[derive(Drop)]
struct Interrupted<'a> {
    bytes: &'a [u8],
    is_next: bool,
}

impl Read for Interrupted<'_> {
    fn read(&mut self, buf: &mut [u8]) -> io::Result<usize> {
        self.is_next = !self.is_next;
        if self.is_next {
            return Err(ErrorKind::Interrupted.into());
        }
        self.bytes.read(buf)
    }
}

#[test]
fn an_interrupted_read_is_tried_again(rt: HostRuntime) -> Result<(), Fail> {
    let bytes = TEXT;
    let reader = Interrupted {
        bytes,
        is_next: false,
    };
    assert!(rt; reads(rt.alloc(), &mut Reading::new(reader)));
    Ok(())
}

#[test]
fn std_readers_are_streams(rt: HostRuntime) -> Result<(), Fail> {
    assert!(rt; reads(rt.alloc(), &mut Reading::new(TEXT)));
    OpenGate.pass(0, 0);
    Ok(())
}

#[test]
fn std_writers_are_streams(rt: HostRuntime) -> Result<(), Fail> {
    let mut room = [0u8; 3];
    let mut sink = Writing::new(room.as_mut_slice());
    assert!(rt; write_all(&mut sink, TEXT).is_err() && sink.flush().is_ok());
    drop(sink);
    assert!(rt; room == *b"som");
    Ok(())
}

#[test]
fn a_buffered_writer_fails_at_its_flush(rt: HostRuntime) -> Result<(), Fail> {
    let mut room = [0u8; 3];
    let mut sink = Writing::new(BufWriter::new(rt.alloc(), room.as_mut_slice())?);
    assert!(rt; write_all(&mut sink, TEXT).is_ok() && sink.flush().is_err());
    Ok(())
}
