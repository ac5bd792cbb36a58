ghost use Rattle.std.specs.Prelude.{◌≡◌, min, take, drop, length, ◌++◌};

/// Copies the front of `rest` to the front of `buf`, at most `most` bytes, and answers how many.
pub fn give(rest: &[u8], most: usize, buf: &mut [u8]) -> usize
    ensures count { result ≡ min (length buf.old) (min most (length rest.now)) }
    ensures bytes { take result buf.new ≡ take result rest.now }
    ensures rest { rest.now ≡ take result buf.new ++ drop result rest.now }
{
    let n = buf.len().min(most.min(rest.len()));
    buf[..n].copy_from_slice(&rest[..n]);
    n
}
