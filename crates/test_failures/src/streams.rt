//! Reads and writes that succeed, that fail at each call in turn, and that reach the limit.
ghost use Rattle.std.specs.Prelude.{◌≤◌};

use simplex_io::{
    InputEnd, MemorySink, MemorySource, ReaderSource, Sink, SinkError, Source, SourceError,
    StdinSource, StdoutSink, WriterSink, read_bytes, read_to_end, write_text,
};
use std::alloc::{AllocError, Global};
use std::fmt::Debug;
use std::io::{self, ErrorKind, Read, Write};
use std::process::Abort;
use std::test::Fail;

/// The test ends here where the two differ, and says in which case.
fn same<T: PartialEq + Debug>(rt: &impl Abort, case: &str, got: &T, wanted: &T) {
    assert_eq!(rt; got, wanted, "{case}");
}

/// What came of reading ten thousand bytes to their end.
#[derive(Debug, PartialEq, Eq, Drop)]
struct Reading {
    given: Result<Vec<u8>, InputEnd>,
    faults: u64,
    /// How many bytes a second reading gave.
    left: Option<usize>,
}

/// How many bytes are left, if they can be read.
fn left(alloc: Global, source: &mut MemorySource, limit: u32) -> Option<usize> {
    match read_to_end(alloc, source, limit) {
        Ok(rest) => Some(rest.len()),
        Err(_) => None,
    }
}

/// What comes of it where the read with this number fails; the first has number 1.
fn failing_at(alloc: Global, failing: u64, limit: u32) -> Result<Reading, AllocError> {
    let input = vec![in alloc; 7u8; 10_000]?;
    let mut source = MemorySource::new(input, vec![in alloc; failing]?);
    let given = read_to_end(alloc, &mut source, limit);
    let faults = source.faults();
    let left = left(alloc, &mut source, limit);
    Ok(Reading {
        given,
        faults,
        left,
    })
}

/// One read failed, and so much was left.
fn failed(left: usize) -> Reading {
    Reading {
        given: Err(InputEnd::ReadFault),
        faults: 1,
        left: Some(left),
    }
}

/// Ten thousand bytes come in reads of 4,096, 4,096, 1,808 and none.
#[test]
fn an_input_is_read_to_its_end(rt: HostRuntime) -> Result<(), Fail> {
    let alloc = rt.alloc();
    let whole = Reading {
        given: Ok(vec![in alloc; 7u8; 10_000]?),
        faults: 0,
        left: Some(0),
    };
    same(&rt, "no read fails", &failing_at(alloc, 0, 10_000)?, &whole);
    let mut source = MemorySource::new(vec![in alloc; 7u8; 10_000]?, Vec::new(alloc));
    let given = read_bytes(alloc, &mut source);
    same(&rt, "within the program's limit", &given, &whole.given);
    let too_long = Reading {
        given: Err(InputEnd::TooLong),
        faults: 0,
        left: Some(0),
    };
    same(&rt, "too long", &failing_at(alloc, 0, 9_999)?, &too_long);
    for (failing, left) in [(1, 10_000), (2, 5_904), (3, 1_808), (4, 0)] {
        let reading = failing_at(alloc, failing, 10_000)?;
        same(
            &rt,
            "a read fails",
            &(failing, reading),
            &(failing, failed(left)),
        );
    }
    Ok(())
}

/// What came of writing forty bytes.
#[derive(Debug, PartialEq, Eq, Drop)]
struct Writing {
    answer: Result<(), SinkError>,
    written: Vec<u8>,
    faults: u64,
}

const TEXT: &str = "forty bytes that take up several writes.";

/// What comes of it where the write with this number fails; the first has number 1.
fn failing_write(alloc: Global, failing: u64) -> Result<Writing, AllocError> {
    let mut sink = MemorySink::new(alloc, vec![in alloc; failing]?);
    let answer = write_text(&mut sink, TEXT.as_bytes());
    Ok(Writing {
        answer,
        written: sink.bytes().to_vec(alloc)?,
        faults: sink.faults(),
    })
}

/// The first bytes were written, and then a write failed.
fn written(alloc: Global, count: usize) -> Result<Writing, AllocError>
    requires { count ≤ 40 }
{
    Ok(Writing {
        answer: Err(SinkError::Failed),
        written: TEXT.as_bytes()[..count].to_vec(alloc)?,
        faults: 1,
    })
}

/// Forty bytes are written in pieces of 16, 16 and 8.
#[test]
fn a_text_is_written_whole(rt: HostRuntime) -> Result<(), Fail> {
    let alloc = rt.alloc();
    let whole = Writing {
        answer: Ok(()),
        written: TEXT.as_bytes().to_vec(alloc)?,
        faults: 0,
    };
    same(&rt, "no write fails", &failing_write(alloc, 0)?, &whole);
    let fourth = failing_write(alloc, 4)?;
    same(&rt, "a fourth write would fail", &fourth, &whole);
    same(
        &rt,
        "write 1 fails",
        &failing_write(alloc, 1)?,
        &written(alloc, 0)?,
    );
    same(
        &rt,
        "write 2 fails",
        &failing_write(alloc, 2)?,
        &written(alloc, 16)?,
    );
    same(
        &rt,
        "write 3 fails",
        &failing_write(alloc, 3)?,
        &written(alloc, 32)?,
    );
    Ok(())
}

/// A stream whose first call moves a byte, whose second fails, and whose later ones move nothing.
#[derive(Drop)]
struct Stream {
    calls: u8,
}

impl Stream {
    fn moved(&mut self) -> io::Result<usize> {
        self.calls = self.calls.saturating_add(1);
        match self.calls {
            1 => Ok(1),
            2 => Err(ErrorKind::Interrupted.into()),
            _ => Ok(0),
        }
    }
}

impl Read for Stream {
    fn read(&mut self, buf: &mut [u8]) -> io::Result<usize> {
        Ok(self.moved()?.min(buf.len()))
    }
}

impl Write for Stream {
    fn write(&mut self, buf: &[u8]) -> io::Result<usize> {
        Ok(self.moved()?.min(buf.len()))
    }

    fn flush(&mut self) -> io::Result<()> {
        Ok(())
    }
}

#[test]
fn a_stream_is_a_source(rt: HostRuntime) -> Result<(), Fail> {
    let alloc = rt.alloc();
    let mut source = ReaderSource::new(alloc, Stream { calls: 0 });
    same(&rt, "a byte", &source.read(9), &Ok(vec![in alloc; 0u8]?));
    same(&rt, "a fault", &source.read(9), &Err(SourceError::Failed));
    same(&rt, "the end", &source.read(9), &Ok(vec![in alloc]?));
    same(&rt, "faults", &source.faults(), &1);
    Ok(())
}

#[test]
fn a_stream_is_a_sink(rt: HostRuntime) {
    let mut sink = WriterSink::new(Stream { calls: 0 });
    let bytes = "abc".as_bytes();
    same(&rt, "a byte", &sink.write(bytes), &Ok(1));
    same(&rt, "a fault", &sink.write(bytes), &Err(SinkError::Failed));
    same(&rt, "nothing", &sink.write(bytes), &Err(SinkError::Failed));
    same(&rt, "faults", &sink.faults(), &2);
}

/// A test has no input.
#[test]
fn standard_streams_are_a_source_and_a_sink(rt: HostRuntime) {
    let alloc = rt.alloc();
    let mut input = StdinSource::new(alloc, rt.stdin());
    same(
        &rt,
        "the end of the input",
        &input.read(9),
        &Ok(Vec::new(alloc)),
    );
    same(&rt, "faults of the input", &input.faults(), &0);
    let mut output = StdoutSink::new(rt.stdout());
    let answer = write_text(&mut output, "written\n".as_bytes());
    same(&rt, "written", &answer, &Ok(()));
}
