//! The devices over readers and writers, and the block before a sink.

use arrayvec::ArrayVec;
use sixel_io::{Block, DeviceFault, FromRead, Sink, SliceSink, Source, ToWrite, put_all};
use std::io;
use std::io::{Error, ErrorKind, Read, Write};
use std::test::Fail;

/// What a call of a fake reader or writer does: move at most this many bytes, or fail.
type Call = Result<usize, ErrorKind>;

const INTERRUPTED: Call = Err(ErrorKind::Interrupted);

const BROKEN: Call = Err(ErrorKind::Other);

/// The next call of the list; after its end a call moves all it can.
fn next_call(calls: &mut &'static [Call]) -> io::Result<usize> {
    let all = *calls;
    match all {
        [] => Ok(usize::MAX),
        [call, rest @ ..] => {
            *calls = rest;
            match call {
                Ok(most) => Ok(*most),
                Err(kind) => Err(Error::new(*kind, "refused")),
            }
        }
    }
}

#[derive(Drop)]
struct FakeReader {
    rest: &'static [u8],
    calls: &'static [Call],
}

impl Read for FakeReader {
    fn read(&mut self, buf: &mut [u8]) -> io::Result<usize> {
        let most = next_call(&mut self.calls)?;
        let most = most.min(buf.len());
        self.rest.read(&mut buf[..most])
    }
}

#[derive(Drop)]
struct FakeWriter<'a> {
    written: &'a mut ArrayVec<u8, 64>,
    calls: &'static [Call],
}

impl Write for FakeWriter<'_> {
    fn write(&mut self, buf: &[u8]) -> io::Result<usize> {
        let most = next_call(&mut self.calls)?;
        let count = most.min(buf.len());
        let _ = self.written.try_extend_from_slice(&buf[..count]);
        Ok(count)
    }

    fn flush(&mut self) -> io::Result<()> {
        next_call(&mut self.calls)?;
        Ok(())
    }
}

/// Each fill is one read, with room for four bytes: what it gives, these bytes, and how many have failed so far.
#[test]
fn a_reader_is_a_source(rt: HostRuntime) {
    let calls: &[Call] = &[Ok(2), INTERRUPTED, Ok(1), BROKEN];
    let mut source = FromRead::new(FakeReader {
        rest: b"sixel",
        calls,
    });
    for (filled, bytes, failures) in [
        (Ok(2), b"si\0\0", 0),
        (Err(DeviceFault), b"\0\0\0\0", 1),
        (Ok(1), b"x\0\0\0", 1),
        (Err(DeviceFault), b"\0\0\0\0", 2),
        (Ok(2), b"el\0\0", 2),
        (Ok(0), b"\0\0\0\0", 2),
    ] {
        let mut piece = [0; 4];
        assert!(rt; source.fill(&mut piece) == filled, "{bytes:?}");
        assert!(rt;
            piece == *bytes && source.failures() == failures,
            "{bytes:?}"
        );
    }
}

/// Puts these bytes or, if there are none, flushes; whether that succeeds or not, and how many calls have failed so far.
#[test]
fn a_writer_is_a_sink(rt: HostRuntime) {
    let calls: &[Call] = &[Ok(2), Ok(0), Ok(1), INTERRUPTED, BROKEN];
    let mut written = ArrayVec::new();
    let mut sink = ToWrite::new(FakeWriter {
        written: &mut written,
        calls,
    });
    for (bytes, is_done, failures) in [
        (b"sixel".as_slice(), false, 1),
        (b"xel".as_slice(), false, 2),
        (b"".as_slice(), false, 3),
        (b"el".as_slice(), true, 3),
        (b"".as_slice(), true, 3),
    ] {
        let done = if bytes.is_empty() {
            sink.flush()
        } else {
            put_all(&mut sink, bytes)
        };
        assert!(rt;
            done.is_ok() == is_done && sink.failures() == failures,
            "{bytes:?}"
        );
    }
    assert!(rt; written.as_slice() == b"sixel".as_slice());
}

/// A block of eight bytes keeps what fits, hands it on before what doesn't, and hands on the rest when it is drained.
#[test]
fn a_block_hands_on_in_order(rt: HostRuntime) -> Result<(), Fail> {
    let mut room = [0; 32];
    let mut sink = SliceSink::new(&mut room, 32, None);
    let mut block: Block<8> = Block::new();
    for line in [b"one\n".as_slice(), b"two\n", b"", b"seventy\n", b"3\n"] {
        block.put(line, &mut sink).or(Err("a line"))?;
    }
    assert!(rt; sink.written() == b"one\ntwo\nseventy\n".as_slice());
    assert!(rt; block.drain(&mut sink) == Ok(()));
    assert!(rt; sink.written() == b"one\ntwo\nseventy\n3\n".as_slice());
    Ok(())
}
