// Scripts over memory, and over readers and writers that fail, stop short or never end.

use std::alloc::{AllocError, Global};
use std::io;
use std::io::{ErrorKind, Read, Write};
use std::process::Abort;
use vx_base::{Nullability, PType, Scalar};
use vx_run::{WriteFault, run_script, write_rows};
use vx_tree::ArrayRef;

const SCRIPT: &[u8] = b"ints i32 1,2,3,4
ints u32 0,1,2
ints u32 1,2,2
bools bool true,false,true
listview 0 1 2 3
rebuild 4 zctl
parts 5
show 5
";

const PRINTED: &[u8] = b"listview offsets u32 [0,1,1] sizes u32 [1,0,2] elements 3 flag true
[[1],null,[3,4]]
";

const DICTIONARY: &[u8] = b"ints u8? 0,null,2
texts utf8 x6869,x,xc3a9
dict 0 1
show 2
slice 2 1 9
";

const ROWS: &[u8] = b"[x6869,null,xc3a9]
";

const ROWS_AND_FAULT: &[u8] = b"[x6869,null,xc3a9]
error 5 OutOfBounds
";

const ROWS_OF_TEN: &[u8] = b"[3,3,..] of 10";

// The most bytes of a line, and the most read calls of a script.
const MOST: usize = 1_048_576;

// More levels than the stack of `rt try` has room for, where each is let go by the one above it.
const LEVELS: usize = 10_000;

const FAILURES: [ErrorKind; 2] = [ErrorKind::TimedOut, ErrorKind::Interrupted];

/// Gives bytes one a read, and fails once it has answered as many reads as it may.
#[derive(Drop)]
struct FailingReader {
    bytes: &'static [u8],
    reads_left: usize,
    failure: ErrorKind,
}

impl Read for FailingReader {
    fn read(&mut self, buf: &mut [u8]) -> io::Result<usize> {
        if self.reads_left == 0 {
            return Err(io::Error::from(self.failure));
        }
        self.reads_left -= 1;
        let most = buf.len().min(1);
        self.bytes.read(&mut buf[..most])
    }
}

/// Gives the bytes of a text one a read, over and over, and counts the reads.
#[derive(Drop)]
struct EndlessReader {
    text: &'static [u8],
    rest: &'static [u8],
    reads: usize,
}

impl EndlessReader {
    /// A reader of a text that was not read yet.
    fn new(text: &'static [u8]) -> EndlessReader {
        EndlessReader {
            text,
            rest: text,
            reads: 0,
        }
    }
}

impl Read for EndlessReader {
    fn read(&mut self, buf: &mut [u8]) -> io::Result<usize> {
        self.reads = self.reads.saturating_add(1);
        if self.rest.is_empty() {
            self.rest = self.text;
        }
        match (self.rest, buf) {
            ([first, others @ ..], [room, ..]) => {
                *room = *first;
                self.rest = others;
                Ok(1)
            }
            _ => Ok(0),
        }
    }
}

/// Keeps what is written, one byte a write, and fails once it has answered as many writes or
/// flushes as it may, and from then on. With no failure a write takes no bytes in place of it.
#[derive(Drop)]
struct FailingWriter {
    written: Vec<u8>,
    writes_left: usize,
    flushes_left: usize,
    failure: Option<ErrorKind>,
    failures: usize,
}

impl FailingWriter {
    /// A writer that answers so many writes and flushes, and then fails.
    fn new(
        alloc: Global,
        writes_left: usize,
        flushes_left: usize,
        failure: Option<ErrorKind>,
    ) -> FailingWriter {
        FailingWriter {
            written: Vec::new(alloc),
            writes_left,
            flushes_left,
            failure,
            failures: 0,
        }
    }

    /// Counts a call that fails. No call is answered from then on.
    fn fail(&mut self) {
        self.failures = self.failures.saturating_add(1);
        self.writes_left = 0;
        self.flushes_left = 0;
    }
}

impl Write for FailingWriter {
    fn write(&mut self, buf: &[u8]) -> io::Result<usize> {
        if self.writes_left == 0 {
            self.fail();
            return match self.failure {
                Some(kind) => Err(io::Error::from(kind)),
                None => Ok(0),
            };
        }
        self.writes_left -= 1;
        let most = buf.len().min(1);
        self.written.write(&buf[..most])
    }

    fn flush(&mut self) -> io::Result<()> {
        if self.flushes_left == 0 {
            self.fail();
            return match self.failure {
                Some(kind) => Err(io::Error::from(kind)),
                None => Ok(()),
            };
        }
        self.flushes_left -= 1;
        Ok(())
    }
}

/// Runs a script over memory, and compares what it prints and its status.
fn prints<R: Read>(
    rt: &impl Abort,
    alloc: Global,
    input: &mut R,
    wanted: &[u8],
    wanted_status: u8,
) {
    let mut output = Vec::new(alloc);
    let status = run_script(alloc, input, &mut output);
    assert_eq!(rt; output.as_slice(), wanted);
    assert_eq!(rt; status, wanted_status);
}

/// Runs the dictionary script over readers that fail at a read, and compares what it prints.
fn fails_to_read(rt: &impl Abort, alloc: Global, reads_left: usize, wanted: &[u8]) {
    for failure in FAILURES {
        let mut input = FailingReader {
            bytes: DICTIONARY,
            reads_left,
            failure,
        };
        prints(rt, alloc, &mut input, wanted, 1);
    }
}

/// Runs the dictionary script, whose status is 1, over a writer, and compares what is written and
/// how many calls failed: at most one, since nothing follows it.
fn writes(rt: &impl Abort, mut output: FailingWriter, alloc: Global, wanted: &[u8], failed: usize) {
    assert_eq!(rt; run_script(alloc, &mut &DICTIONARY[..], &mut output), 1);
    assert_eq!(rt; output.written.as_slice(), wanted);
    assert_eq!(rt; output.failures, failed);
}

#[test]
fn prints_parts_and_rows(rt: HostRuntime) {
    prints(&rt, rt.alloc(), &mut &SCRIPT[..], PRINTED, 0);
}

#[test]
fn each_failed_read_ends_the_script(rt: HostRuntime) {
    let mut number = 1u32;
    for (at, byte) in DICTIONARY.iter().enumerate() {
        let mut wanted = Vec::new(rt.alloc());
        if number > 4 {
            wanted.extend_from_slice(ROWS).expect(&rt, "made");
        }
        let fault = format!(in rt.alloc(); "error {number} Read\n").expect(&rt, "made");
        wanted
            .extend_from_slice(fault.as_bytes())
            .expect(&rt, "made");
        fails_to_read(&rt, rt.alloc(), at, wanted.as_slice());
        if *byte == b'\n' {
            number = number.saturating_add(1);
        }
    }
}

#[test]
fn each_failed_write_ends_the_script(rt: HostRuntime) {
    let [late, interrupted] = FAILURES;
    for at in 0..ROWS_AND_FAULT.len() {
        let wanted = &ROWS_AND_FAULT[..at];
        let output = FailingWriter::new(rt.alloc(), at, 2, Some(late));
        writes(&rt, output, rt.alloc(), wanted, 1);
        let output = FailingWriter::new(rt.alloc(), at, 2, Some(interrupted));
        writes(&rt, output, rt.alloc(), wanted, 1);
        let takes_nothing = FailingWriter::new(rt.alloc(), at, 2, None);
        writes(&rt, takes_nothing, rt.alloc(), wanted, 1);
    }
}

#[test]
fn each_failed_flush_ends_the_script(rt: HostRuntime) {
    for failure in FAILURES {
        let output = FailingWriter::new(rt.alloc(), MOST, 0, Some(failure));
        writes(&rt, output, rt.alloc(), ROWS, 1);
        let output = FailingWriter::new(rt.alloc(), MOST, 1, Some(failure));
        writes(&rt, output, rt.alloc(), ROWS_AND_FAULT, 1);
    }
}

#[test]
fn a_failed_last_write_or_flush_is_told_by_the_status(rt: HostRuntime) {
    let mut output = FailingWriter::new(rt.alloc(), PRINTED.len().saturating_sub(1), 2, None);
    assert_eq!(rt; run_script(rt.alloc(), &mut &SCRIPT[..], &mut output), 1);
    let mut output = FailingWriter::new(rt.alloc(), PRINTED.len(), 1, Some(ErrorKind::TimedOut));
    assert_eq!(rt; run_script(rt.alloc(), &mut &SCRIPT[..], &mut output), 1);
}

#[test]
fn all_is_written_byte_by_byte(rt: HostRuntime) {
    let output = FailingWriter::new(rt.alloc(), ROWS_AND_FAULT.len(), 2, None);
    writes(&rt, output, rt.alloc(), ROWS_AND_FAULT, 0);
}

#[test]
fn lines_without_end_are_read_up_to_the_limit(rt: HostRuntime) {
    let mut input = EndlessReader::new(b"\n");
    prints(&rt, rt.alloc(), &mut input, b"error 1048577 Read\n", 1);
    assert_eq!(rt; input.reads, MOST);
}

#[test]
fn a_line_without_end_is_read_up_to_the_limit(rt: HostRuntime) {
    let mut input = EndlessReader::new(b"show");
    prints(&rt, rt.alloc(), &mut input, b"error 1 Read\n", 1);
    assert_eq!(rt; input.reads, MOST);
}

#[test]
fn longest_line_is_read(rt: HostRuntime) {
    for (spaces, wanted) in [
        (MOST, b"error 2 NoRegister\n".as_slice()),
        (MOST + 1, b"error 1 Syntax\n"),
    ] {
        let mut script = vec![in rt.alloc(); b' '; spaces].expect(&rt, "made");
        script.extend_from_slice(b"\nshow 0\n").expect(&rt, "made");
        prints(&rt, rt.alloc(), &mut script.as_slice(), wanted, 1);
    }
}

#[test]
fn lists_that_are_nested_deeply_are_let_go(rt: HostRuntime) {
    let mut script = b"ints u8 0\nints u8 1\n"
        .to_vec(rt.alloc())
        .expect(&rt, "made");
    for elements in 1..=LEVELS {
        let line = format!(in rt.alloc(); "listview {elements} 0 1 nonnull\n").expect(&rt, "made");
        script
            .extend_from_slice(line.as_bytes())
            .expect(&rt, "made");
    }
    script
        .extend_from_slice(b"narrow 2\nshow 0\n")
        .expect(&rt, "made");
    prints(
        &rt,
        rt.alloc(),
        &mut script.as_slice(),
        b"error 10003 MismatchedTypes\n",
        1,
    );
}

/// Writes ten rows, at most two of them, over a writer that fails, and compares what is written and
/// how many calls failed.
fn writes_rows(rt: &impl Abort, alloc: Global, mut output: FailingWriter, wanted: &[u8]) {
    let three = Scalar::int(3, PType::U8, Nullability::NonNullable);
    let array = ArrayRef::constant(alloc, three, 10).expect(rt, "made");
    let answer = write_rows(alloc, &array, 2, &mut output);
    assert!(rt; matches!(answer, Err(WriteFault::Output(_))));
    assert_eq!(rt; output.written.as_slice(), wanted);
    assert_eq!(rt; output.failures, 1);
}

#[test]
fn each_failed_write_ends_the_rows(rt: HostRuntime) {
    let [late, interrupted] = FAILURES;
    for at in 0..ROWS_OF_TEN.len() {
        let wanted = &ROWS_OF_TEN[..at];
        for failure in [Some(late), Some(interrupted), None] {
            let output = FailingWriter::new(rt.alloc(), at, 0, failure);
            writes_rows(&rt, rt.alloc(), output, wanted);
        }
    }
}
