ghost use Rattle.std.specs.Prelude.{◌≡◌, ◌+◌, IfOk};

use span_token::OutOfMemory;

/// So many columns and more; more than `u32` counts are want of memory.
pub fn columns_of_both(first: usize, second: usize) -> Result<u32, OutOfMemory>
    ensures { IfOk result (λ width. width ≡ first + second) }
{
    let Some(width) = first.checked_add(second) else {
        return Err(OutOfMemory);
    };
    match u32::try_from(width) {
        Ok(width) => Ok(width),
        Err(_) => Err(OutOfMemory),
    }
}
