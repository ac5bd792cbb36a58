ghost use Rattle.std.specs.Prelude.{◌≤◌, None, true, length};

use aql_io::{Failed, MemSource, Source, SureSource};
use corpus_json::{LineBuffer, LineReader, Next, Step};
use span_token::OutOfMemory;
use std::alloc::Global;
use std::process::Abort;
use std::test::Fail;

/// A letter for each answer, in order, with the bytes of each line before an `L`.
fn said<S: Source>(alloc: Global, source: &mut S, answers: usize) -> Result<Vec<u8>, OutOfMemory> {
    let mut said = Vec::new(alloc);
    let mut lines = LineBuffer::new(alloc)?;
    let mut line = Vec::new(alloc);
    for _ in 0..answers {
        match lines.next_line(source, &mut line)? {
            Step::Line => {
                said.extend_from_slice(&line)?;
                said.push(b'L')?;
            }
            Step::End => said.push(b'E')?,
            Step::Long => said.push(b'T')?,
            Step::Failed => said.push(b'F')?,
            Step::Limit => said.push(b'M')?,
        }
    }
    Ok(said)
}

/// Checks the first answers for bytes that come in pieces of at most so many, where some of the reads fail.
fn expect_said<R: Abort>(
    rt: &R,
    alloc: Global,
    bytes: &[u8],
    piece: usize,
    fail: &[u64],
    answers: usize,
    wanted: &[u8],
) -> Result<(), OutOfMemory>
    requires { 1 ≤ piece }
{
    let mut source = MemSource::new(bytes.to_vec(alloc)?, piece, fail.to_vec(alloc)?);
    let given = said(alloc, &mut source, answers)?;
    assert_eq!(rt;
        given.as_slice(),
        wanted,
        "pieces of {piece} bytes, where the reads {fail:?} fail"
    );
    Ok(())
}

#[test]
fn lines_end_at_lf_or_at_the_end_of_the_source(rt: HostRuntime) -> Result<(), Fail> {
    let alloc = rt.alloc();
    let table: [(&[u8], &[u8]); 9] = [
        (b"", b"EEEEE"),
        (b"\n", b"LEEEE"),
        (b"\n\n", b"LLEEE"),
        (b"ab\ncd\n", b"abLcdLEEE"),
        (b"ab\ncd", b"abLcdLEEE"),
        (b"ab\n\ncd\n", b"abLLcdLEE"),
        (b"ab\r\ncd", b"ab\rLcdLEEE"),
        (b"ab", b"abLEEEE"),
        (b"\xff\n\x00", b"\xffL\x00LEEE"),
    ];
    for (bytes, wanted) in table {
        for piece in 1..4usize {
            expect_said(&rt, alloc, bytes, piece, &[], 5, wanted)?;
        }
    }
    Ok(())
}

#[test]
fn a_failed_read_ends_the_lines_for_good(rt: HostRuntime) -> Result<(), Fail> {
    let alloc = rt.alloc();
    let table: [(u64, &[u8]); 5] = [
        (1, b"FFFF"),
        (2, b"FFFF"),
        (3, b"abLFFF"),
        (4, b"abLcLFF"),
        (5, b"abLcLdLE"),
    ];
    for (call, wanted) in table {
        expect_said(&rt, alloc, b"ab\nc\nd", 2, &[call], 4, wanted)?;
    }
    Ok(())
}

/// The first two answers for a source of `count` letters and then `tail`, and the length of the first line.
fn first_two(alloc: Global, count: usize, tail: &[u8]) -> Result<(Step, usize, Step), OutOfMemory> {
    let mut bytes = vec![in alloc; b'a'; count]?;
    bytes.extend_from_slice(tail)?;
    let mut source = SureSource::new(bytes);
    let mut lines = LineBuffer::new(alloc)?;
    let mut line = Vec::new(alloc);
    let first = lines.next_line(&mut source, &mut line)?;
    let len = line.len();
    let second = lines.next_line(&mut source, &mut line)?;
    Ok((first, len, second))
}

/// Checks the first two answers for a source of `count` letters and then `tail`; gives the length of the first line.
fn expect_two<R: Abort>(
    rt: &R,
    alloc: Global,
    count: usize,
    tail: &[u8],
    wanted: (Step, Step),
) -> Result<usize, OutOfMemory> {
    let (first, len, second) = first_two(alloc, count, tail)?;
    assert_eq!(rt; (first, second), wanted, "{count} letters");
    Ok(len)
}

#[test]
fn a_line_may_have_16777216_bytes_and_not_one_more(rt: HostRuntime) -> Result<(), Fail> {
    let alloc = rt.alloc();
    for tail in [b"".as_slice(), b"\n".as_slice()] {
        let len = expect_two(&rt, alloc, 16_777_216, tail, (Step::Line, Step::End))?;
        assert!(rt; len == 16_777_216);
        expect_two(&rt, alloc, 16_777_217, tail, (Step::Long, Step::Long))?;
    }
    Ok(())
}

/// A source that tells no bytes beforehand and shows what is left of them.
#[derive(Drop)]
struct Open {
    bytes: &'static [u8],
}

impl Source for Open {
    ghost left = { λ _. None };

    ghost faults = { λ _. 0 };

    ghost looks = { λ _. true };

    fn read(&mut self, buf: &mut [u8]) -> Result<usize, Failed> {
        let n = copied(self.bytes, 0, buf);
        self.bytes = self.bytes.get(n..).unwrap_or(b"");
        Ok(n)
    }

    fn look(&self, at: usize, buf: &mut [u8]) -> usize {
        copied(self.bytes, at, buf)
    }

    fn pass(&mut self, count: usize) {
        self.bytes = self.bytes.get(count..).unwrap_or(b"");
    }
}

/// Copies what stands at a place to the front of `buf`, and answers how many bytes these are.
fn copied(bytes: &[u8], at: usize, buf: &mut [u8]) -> usize
    ensures { result ≤ length buf.new }
{
    let rest = bytes.get(at..).unwrap_or(b"");
    let n = rest.len().min(buf.len());
    buf[..n].copy_from_slice(&rest[..n]);
    n
}

/// What a buffer has ready and has taken, after it passed so many bytes more.
fn passed(lines: &mut LineBuffer, source: &mut Open, count: usize) -> (usize, u64) {
    if count <= lines.may_take() {
        lines.pass(source, count);
    }
    (lines.ready().len(), lines.taken())
}

/// Checks that this is the next line of a buffer over a source.
fn expect_line<R: Abort>(
    rt: &R,
    alloc: Global,
    lines: &mut LineBuffer,
    source: &mut Open,
    wanted: &str,
) -> Result<(), OutOfMemory> {
    let mut line = Vec::new(alloc);
    let step = lines.next_line(source, &mut line)?;
    assert_eq!(rt; (step, line.as_slice()), (Step::Line, wanted.as_bytes()));
    Ok(())
}

#[test]
fn what_was_looked_at_is_passed_where_it_stands(rt: HostRuntime) -> Result<(), Fail> {
    let alloc = rt.alloc();
    let mut source = Open {
        bytes: b"ab\nc\nde\nfg\nhi\nj",
    };
    let mut lines = LineBuffer::with_room(alloc, 8)?;
    // the first read brings `ab`, `c` and `de`
    expect_line(&rt, alloc, &mut lines, &mut source, "ab")?;
    assert_eq!(rt; passed(&mut lines, &mut source, 2), (3, 8), "c");
    // `de` is ready, and `fg` is left of the source
    assert_eq!(rt; passed(&mut lines, &mut source, 6), (0, 11), "de and fg");
    expect_line(&rt, alloc, &mut lines, &mut source, "hi")?;
    expect_line(&rt, alloc, &mut lines, &mut source, "j")?;
    // nothing may be taken behind the end
    assert_eq!(rt; passed(&mut lines, &mut source, 1), (0, 15), "the end");
    Ok(())
}

/// Checks that this line is the next of a reader.
fn expect_next<R: Abort, S: Source>(
    rt: &R,
    reader: &mut LineReader<S>,
    wanted: &str,
) -> Result<(), OutOfMemory> {
    let next = reader.next()?;
    assert!(rt; matches!(&next, Next::Line(_)), "{wanted}");
    if let Next::Line(line) = next {
        assert_eq!(rt; line.as_slice(), wanted.as_bytes());
    }
    Ok(())
}

/// Checks that a reader has no line and its source no byte.
fn expect_end<R: Abort, S: Source + Drop>(
    rt: &R,
    mut reader: LineReader<S>,
) -> Result<(), OutOfMemory> {
    assert!(rt; matches!(reader.next()?, Next::End));
    let mut source = reader.into_source();
    let mut rest = [0u8; 1];
    assert_eq!(rt; source.read(&mut rest), Ok(0));
    Ok(())
}

#[test]
fn a_reader_gives_lines_of_its_own_source(rt: HostRuntime) -> Result<(), Fail> {
    let alloc = rt.alloc();
    let mut source = SureSource::new(b"one\ntwo".to_vec(alloc)?);
    let mut reader = LineReader::new(alloc, &mut source)?;
    expect_next(&rt, &mut reader, "one")?;
    expect_next(&rt, &mut reader, "two")?;
    Ok(expect_end(&rt, reader)?)
}
