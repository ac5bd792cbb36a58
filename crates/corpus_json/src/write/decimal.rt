ghost use Rattle.std.specs.Prelude.{◌≡◌, ◌+◌, ◌<◌, ◌≤◌, length, decimal};
ghost use Rattle.json.specs.Filled.{Placed};

use itoa::write_digits;

/// Writes the number in decimal to `at`, and gives the place behind it.
#[inline(always)]
pub(crate) fn place_decimal(buf: &mut [u8], at: usize, n: u32) -> usize
    requires { at + 10 ≤ length buf.old }
    ensures placed { Placed buf.old buf.new at (decimal n) result }
    ensures short { result ≤ at + 10 }
{
    let end = at + digits(n);
    write_digits(u64::from(n), buf, end);
    end
}

/// The number of digits.
#[inline(always)]
fn digits(n: u32) -> usize
    ensures digits { result ≡ length (decimal n) }
    ensures few { result ≤ 10 }
{
    if n < 10_000 {
        return few_digits(n);
    }
    if n < 100_000_000 {
        return 4 + few_digits(n / 10_000);
    }
    8 + few_digits(n / 100_000_000)
}

/// The number of digits, of at most four.
#[inline(always)]
fn few_digits(n: u32) -> usize
    requires { n < 10000 }
    ensures digits { result ≡ length (decimal n) }
    ensures few { result ≤ 4 }
{
    if n < 10 {
        1
    } else if n < 100 {
        2
    } else if n < 1000 {
        3
    } else {
        4
    }
}
