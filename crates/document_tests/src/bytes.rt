//! Sources and sinks to their ends and up to their faults, over memory and over std.
ghost use Rattle.std.specs.Prelude.{◌≤◌};

use byte_edge::{
    MemSink, MemSource, ReadStop, Sink, SinkStop, SlowSink, SlowSource, Source, StdSink, StdSource,
    SureSink, SureSource, put_all, read_all,
};
use std::alloc::{AllocError, Global};
use std::io;
use std::io::{ErrorKind, Read, Write};
use std::test::Fail;

// The first bytes of a sequence that doesn't repeat at the ends of buffers.
fn some_bytes(alloc: Global, length: u32) -> Result<Vec<u8>, AllocError> {
    let mut bytes = Vec::new(alloc);
    for i in 0..length {
        bytes.push((i % 251) as u8)?;
    }
    Ok(bytes)
}

// How many bytes there are, the limit, which call fails (0: none), and what reading to the end answers.
const READS: [(u32, usize, u32, Result<(), ReadStop>); 10] = [
    (0, 0, 0, Ok(())),
    (1, 0, 0, Err(ReadStop::TooLong)),
    (5000, 5000, 0, Ok(())),
    (5000, 4999, 0, Err(ReadStop::TooLong)),
    (5000, 5000, 1, Err(ReadStop::Failed)),
    (5000, 5000, 2, Err(ReadStop::Failed)),
    (5000, 5000, 3, Err(ReadStop::Failed)),
    (5000, 5000, 4, Ok(())),
    (5000, 100, 2, Err(ReadStop::TooLong)),
    (5000, 100, 1, Err(ReadStop::Failed)),
];

#[test]
fn reads_to_the_end(rt: HostRuntime) -> Result<(), Fail> {
    let alloc = rt.alloc();
    for (length, limit, failing, want) in READS {
        let bytes = some_bytes(alloc, length)?;
        let fail = [failing].to_vec(alloc)?;
        let mut source = MemSource::new(bytes.clone()?, fail);
        let answer = read_all(alloc, &mut source, limit);
        let as_wanted = match (&answer, want) {
            (Ok(all), Ok(())) => all.as_slice() == bytes.as_slice(),
            (Err(stop), Err(other)) => *stop == other,
            _ => false,
        };
        assert!(rt;
            as_wanted,
            "{length} bytes, limit {limit}, call {failing} fails"
        );
    }
    let mut source = SureSource::new(some_bytes(alloc, 9000)?);
    let all = read_all(alloc, &mut source, 9000);
    assert!(rt; all.is_ok_and(|all| all.len() == 9000));
    Ok(())
}

#[test]
fn puts_all_up_to_a_fault(rt: HostRuntime) -> Result<(), Fail> {
    let alloc = rt.alloc();
    let mut sink = MemSink::new([3].to_vec(alloc)?);
    for (piece, want) in [
        (b"one ".as_slice(), Ok(())),
        (b"two ".as_slice(), Ok(())),
        (b"three ".as_slice(), Err(SinkStop::Failed)),
        (b"four".as_slice(), Ok(())),
    ] {
        assert!(rt; put_all(&mut sink, piece) == want);
    }
    assert_eq!(rt; sink.bytes(), b"one two four".as_slice());
    let mut sure = SureSink::new(alloc);
    assert!(rt; put_all(&mut sure, b"all").is_ok());
    assert_eq!(rt; sure.bytes(), b"all".as_slice());
    Ok(())
}

// A reader that gives one byte a call and fails at the call with this number.
#[derive(Drop)]
struct Drops {
    calls: u64,
    failing: u64,
    end: u64,
}

impl Read for Drops {
    fn read(&mut self, buf: &mut [u8]) -> io::Result<usize> {
        self.calls = self.calls.saturating_add(1);
        if self.calls == self.failing {
            return Err(ErrorKind::Other.into());
        }
        if self.calls > self.end || buf.is_empty() {
            return Ok(0);
        }
        buf[0] = b'x';
        Ok(1)
    }
}

#[test]
fn adapts_a_reader(rt: HostRuntime) -> Result<(), Fail> {
    let alloc = rt.alloc();
    for (failing, limit, want) in [
        (0, 5, Ok(())),
        (3, 5, Err(ReadStop::Failed)),
        (0, 4, Err(ReadStop::TooLong)),
        (6, 5, Err(ReadStop::Failed)),
        (7, 5, Ok(())),
    ] {
        let mut source = StdSource::new(Drops {
            calls: 0,
            failing,
            end: 5,
        });
        let answer = read_all(alloc, &mut source, limit);
        let as_wanted = match (&answer, want) {
            (Ok(all), Ok(())) => all.as_slice() == b"xxxxx".as_slice(),
            (Err(stop), Err(other)) => *stop == other,
            _ => false,
        };
        assert!(rt; as_wanted, "limit {limit}, call {failing} fails");
    }
    Ok(())
}

// A writer that takes at most two bytes a call, and nothing once it has six.
#[derive(Drop)]
struct Narrow<'a> {
    bytes: &'a mut Vec<u8>,
}

impl Write for Narrow<'_> {
    fn write(&mut self, buf: &[u8]) -> io::Result<usize> {
        if self.bytes.len() >= 6 {
            return Ok(0);
        }
        let count = buf.len().min(2);
        self.bytes.extend_from_slice(&buf[..count])?;
        Ok(count)
    }

    fn flush(&mut self) -> io::Result<()> {
        Ok(())
    }
}

#[test]
fn adapts_a_writer(rt: HostRuntime) -> Result<(), Fail> {
    let alloc = rt.alloc();
    for (piece, want, taken) in [
        (b"".as_slice(), Ok(()), b"".as_slice()),
        (b"abcde".as_slice(), Ok(()), b"abcde".as_slice()),
        (b"abcdef".as_slice(), Ok(()), b"abcdef".as_slice()),
        (
            b"abcdefg".as_slice(),
            Err(SinkStop::Failed),
            b"abcdef".as_slice(),
        ),
    ] {
        let mut bytes = Vec::new(alloc);
        let mut sink = StdSink::new(Narrow { bytes: &mut bytes });
        assert!(rt; put_all(&mut sink, piece) == want);
        drop(sink);
        assert_eq!(rt; bytes.as_slice(), taken);
    }
    Ok(())
}

// Bytes that come and go in steps, all of them in the end.
fn moves_by<R: AllocGlobal>(rt: &R, step: u32) -> Result<(), Fail>
    requires { 1 ≤ step }
{
    let alloc = rt.alloc();
    let bytes = some_bytes(alloc, 300)?;
    let mut source = SlowSource::new(bytes.clone()?, step);
    let mut sink = SlowSink::new(alloc, step);
    let all = read_all(alloc, &mut source, 300);
    if !all.is_ok_and(|all| put_all(&mut sink, &all).is_ok()) || sink.bytes() != bytes.as_slice() {
        return Err("all the bytes".into());
    }
    Ok(())
}

#[test]
fn moves_in_steps(rt: HostRuntime) -> Result<(), Fail> {
    moves_by(&rt, 1)?;
    moves_by(&rt, 7)?;
    moves_by(&rt, 4096)?;
    let alloc = rt.alloc();
    let mut buf = [0u8; 5];
    let mut source = SlowSource::new(b"abc".to_vec(alloc)?, 2);
    assert!(rt; source.read(&mut buf) == Ok(2) && buf == *b"ab\0\0\0");
    let mut sink = SlowSink::new(alloc, 2);
    assert!(rt; sink.write(b"abc") == Ok(2) && sink.bytes() == b"ab".as_slice());
    Ok(())
}
