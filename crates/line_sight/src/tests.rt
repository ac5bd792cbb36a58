ghost use Rattle.std.specs.Prelude.{◌≤◌, None, true, length};

use super::*;
use aql_io::{Failed, Source};
use std::alloc::Global;
use std::process::Abort;
use std::test::Fail;

/// Bytes of which a look shows a few at a time, and none from some place on.
#[derive(Drop)]
struct Shy {
    bytes: &'static [u8],
    few: usize,
}

impl Source for Shy {
    ghost left = { λ _. None };

    ghost faults = { λ _. 0 };

    ghost looks = { λ _. true };

    fn read(&mut self, buf: &mut [u8]) -> Result<usize, Failed> {
        let n = copied(self.bytes, 0, self.few, buf);
        self.bytes = self.bytes.get(n..).unwrap_or(b"");
        Ok(n)
    }

    fn look(&self, at: usize, buf: &mut [u8]) -> usize {
        copied(self.bytes, at, self.few, buf)
    }

    fn pass(&mut self, count: usize) {
        self.bytes = self.bytes.get(count..).unwrap_or(b"");
    }
}

/// Copies some of what stands at a place to the front of `buf`, and answers how many bytes these are.
fn copied(bytes: &[u8], at: usize, few: usize, buf: &mut [u8]) -> usize
    ensures { result ≤ length buf.new }
{
    let rest = bytes.get(at..).unwrap_or(b"");
    let n = rest.len().min(buf.len()).min(few);
    buf[..n].copy_from_slice(&rest[..n]);
    n
}

/// Checks that a sight finds these lines from a place on, and no other behind them.
fn finds<R: Abort>(
    rt: &R,
    alloc: Global,
    seen: &Seen<'_, Shy>,
    at: usize,
    wanted: &[&str],
) -> Result<(), Fail>
    requires { at ≤ seen.now.most }
{
    let mut sight = Sight::new(alloc);
    sight.go_to(at);
    for line in wanted {
        let found = sight.find_line(seen, 1_000, 8)?;
        assert_eq!(rt; found, Some(line.len()), "{line} from {at} on");
        if let Some(n) = found {
            assert_eq!(rt; sight.front(n), line.as_bytes(), "from {at} on");
            sight.pass_line(n);
        }
    }
    assert_eq!(rt;
        sight.find_line(seen, 1_000, 8)?,
        None,
        "behind the lines from {at} on"
    );
    Ok(())
}

#[test]
fn lines_are_found_where_they_stand_however_few_bytes_are_shown(
    rt: HostRuntime,
) -> Result<(), Fail> {
    let alloc = rt.alloc();
    for few in [1, 2, 3, 8, 1_000] {
        let corpus = Shy {
            bytes: b"d\n\nefg\nh",
            few,
        };
        let seen = Seen {
            ready: b"ab\nc",
            corpus: &corpus,
            most: 100,
        };
        finds(&rt, alloc, &seen, 0, &["ab", "cd", "", "efg"])?;
        finds(&rt, alloc, &seen, 3, &["cd", "", "efg"])?;
        finds(&rt, alloc, &seen, 6, &["", "efg"])?;
        finds(&rt, alloc, &seen, 7, &["efg"])?;
        finds(&rt, alloc, &seen, 11, &[])?;
        finds(&rt, alloc, &seen, 100, &[])?;
    }
    Ok(())
}

#[test]
fn no_line_is_found_that_ends_behind_what_may_be_looked_at(rt: HostRuntime) -> Result<(), Fail> {
    let alloc = rt.alloc();
    let corpus = Shy {
        bytes: b"d\n\nefg\nh",
        few: 1_000,
    };
    let seen = Seen {
        ready: b"ab\nc",
        corpus: &corpus,
        most: 10,
    };
    finds(&rt, alloc, &seen, 0, &["ab", "cd", ""])?;
    finds(&rt, alloc, &seen, 7, &[])?;
    Ok(())
}

#[test]
fn a_line_of_as_many_bytes_as_the_limit_is_not_looked_at_to_its_end(
    rt: HostRuntime,
) -> Result<(), Fail> {
    let alloc = rt.alloc();
    let corpus = Shy {
        bytes: b"aaaaaaaaaa\n",
        few: 2,
    };
    let seen = Seen {
        ready: b"",
        corpus: &corpus,
        most: 100,
    };
    let mut sight = Sight::new(alloc);
    assert_eq!(rt; sight.find_line(&seen, 10, 0)?, None);
    assert_eq!(rt; sight.find_line(&seen, 11, 0)?, Some(10));
    // it was looked at by now
    assert_eq!(rt; sight.find_line(&seen, 10, 0)?, None);
    Ok(())
}
