ghost use Rattle.std.specs.Prelude.{◌≡◌, ◌≤◌, ◌∷◌, [], length, take};
ghost use Rattle.span_token.specs.Leads.{leads, IsPlace};

/// How many characters begin in `bytes`, of which there are few, so that they are counted many at a time.
#[inline(always)]
pub(crate) fn count_leads(bytes: &[u8]) -> usize
    requires few { length bytes.now ≤ 64 }
    ensures { result ≡ leads bytes.now }
{
    let mut found = 0;
    for byte in bytes {
        found += lead(*byte);
    }
    found as usize
}

/// One where a character begins with the byte, and else none.
#[inline(always)]
fn lead(byte: u8) -> u8
    ensures counts { result ≡ leads (byte ∷ []) }
    ensures one { result ≤ 1 }
{
    u8::from(byte < 128 || 192 <= byte)
}

/// The byte at which character `place` begins, or the end, sought from byte `from` on.
pub(crate) fn seek(text: &str, from: usize, passed: u32, place: u32) -> usize
    requires within { from ≤ length text.now }
    requires passed { leads (take from text.now) ≡ passed }
    requires ahead { passed ≤ place }
    requires exists { place ≤ leads text.now }
    ensures { IsPlace text.now place result }
{
    let bytes = text.as_bytes();
    let mut at = from;
    let mut passed = passed;
    'eights: while bytes.len() - at >= 8 && place - passed >= 8 {
        passed += count_leads(&bytes[at..at + 8]) as u32;
        at += 8;
    }
    seek_near(text, at, passed, place)
}

/// The same, byte by byte, for a character that isn't far.
#[inline(always)]
fn seek_near(text: &str, from: usize, passed: u32, place: u32) -> usize
    requires within { from ≤ length text.now }
    requires passed { leads (take from text.now) ≡ passed }
    requires ahead { passed ≤ place }
    requires exists { place ≤ leads text.now }
    ensures { IsPlace text.now place result }
{
    let bytes = text.as_bytes();
    let mut passed = passed;
    for at in from..bytes.len() {
        let byte = bytes[at];
        if byte < 128 || 192 <= byte {
            if passed == place {
                return at;
            }
            passed += 1;
        }
    }
    bytes.len()
}
