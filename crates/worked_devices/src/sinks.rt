// Sinks: in memory, and over a writer of the machine that takes one byte at a time.
use crate::same::check_same;
use outside_desk::{MemorySink, RealSink, Sink, SinkFault, SteadySink};
use std::alloc::Global;
use std::io;
use std::process::Abort;
use std::test::Fail;

/// The calls that fail, what the sink gets, and its count of failed calls.
type SayRow = (&'static [u64], &'static [u8], u64);

const FAILING_SAYS: &[SayRow] = &[
    (&[], b"one\ntwo\xff", 0),
    (&[0], b"two\xff", 1),
    (&[1], b"one\ntwo\xff", 1),
    (&[2, 0], b"", 2),
    (&[3], b"one\ntwo\xff", 0),
];

/// What is said to a sink, call by call.
const SAID: &[&[u8]] = &[b"one\n", b"", b"two\xff"];

fn check_failing_says(rt: &impl Abort, alloc: Global, row: &SayRow) -> Result<(), Fail> {
    let (failing, wanted, faults) = *row;
    let mut sink = MemorySink::new(alloc);
    for call in failing {
        sink.fail_call(*call)?;
    }
    for (call, piece) in SAID.iter().enumerate() {
        let fails = failing.contains(&(call as u64));
        let got = sink.say(alloc, piece).err();
        let wanted = fails.then_some(SinkFault::Failed);
        check_same(rt, &(failing, call, got), &(failing, call, wanted));
    }
    let got = (failing, sink.said(), sink.faults());
    check_same(rt, &got, &(failing, wanted, faults));
    Ok(())
}

fn check_steady_sink(rt: &impl Abort, alloc: Global) {
    let mut sink = SteadySink::new(alloc);
    assert_eq!(rt; sink.said(), b"".as_slice());
    for piece in SAID {
        assert!(rt; sink.say(alloc, piece) == Ok(()));
    }
    assert_eq!(rt; sink.said(), b"one\ntwo\xff".as_slice());
}

#[test]
fn sinks_in_memory(rt: HostRuntime) -> Result<(), Fail> {
    for row in FAILING_SAYS {
        check_failing_says(&rt, rt.alloc(), row)?;
    }
    check_steady_sink(&rt, rt.alloc());
    Ok(())
}

/// A writer that takes one byte at a call. One call is interrupted, and one takes nothing.
#[derive(Drop)]
struct SlowWriter<'a> {
    got: &'a mut Vec<u8>,
    calls: u32,
    interrupted: u32,
    refused: u32,
}

impl<'a> io::Write for SlowWriter<'a> {
    fn write(&mut self, bytes: &[u8]) -> io::Result<usize> {
        let call = self.calls;
        self.calls = call.saturating_add(1);
        if call == self.interrupted {
            return Err(io::Error::from(io::ErrorKind::Interrupted));
        }
        if call == self.refused {
            return Ok(0);
        }
        match bytes.first() {
            Some(byte) => {
                self.got.push(*byte)?;
                Ok(1)
            }
            None => Ok(0),
        }
    }

    fn flush(&mut self) -> io::Result<()> {
        Ok(())
    }
}

const FAILED: Result<(), SinkFault> = Err(SinkFault::Failed);

/// The calls of the writer that is interrupted and of the one that takes nothing, what sayings of
/// `abcd` and of `efgh` answer, and what the writer got.
type SlowRow = (
    u32,
    u32,
    Result<(), SinkFault>,
    Result<(), SinkFault>,
    &'static [u8],
);

const SLOW_SAYS: &[SlowRow] = &[
    (99, 99, Ok(()), Ok(()), b"abcdefgh"),
    (0, 99, Ok(()), Ok(()), b"abcdefgh"),
    (3, 99, Ok(()), Ok(()), b"abcdefgh"),
    (99, 0, FAILED, Ok(()), b"efgh"),
    (0, 1, FAILED, Ok(()), b"efgh"),
    (99, 3, FAILED, Ok(()), b"abcefgh"),
    (99, 4, Ok(()), FAILED, b"abcd"),
    (2, 7, Ok(()), FAILED, b"abcdef"),
    (2, 9, Ok(()), Ok(()), b"abcdefgh"),
];

fn check_slow_says(rt: &impl Abort, alloc: Global, row: &SlowRow) {
    let (interrupted, refused, first, second, wanted) = *row;
    let mut got = Vec::new(alloc);
    let mut sink = RealSink::new(SlowWriter {
        got: &mut got,
        calls: 0,
        interrupted,
        refused,
    });
    let answers = (sink.say(alloc, b"abcd"), sink.say(alloc, b"efgh"));
    let wanted_answers = (first, second);
    check_same(
        rt,
        &(interrupted, refused, answers),
        &(interrupted, refused, wanted_answers),
    );
    check_same(
        rt,
        &(interrupted, refused, got.as_slice()),
        &(interrupted, refused, wanted),
    );
}

#[test]
fn sinks_of_the_machine(rt: HostRuntime) -> Result<(), Fail> {
    let alloc = rt.alloc();
    for row in SLOW_SAYS {
        check_slow_says(&rt, alloc, row);
    }
    let mut sink = RealSink::new(rt.stdout());
    assert!(rt; sink.say(alloc, b"") == Ok(()));
    assert!(rt; sink.say(alloc, b"said to the standard output\n") == Ok(()));
    Ok(())
}
