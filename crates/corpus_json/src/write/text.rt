ghost use Rattle.std.specs.Prelude.{◌≡◌, ◌++◌, ◌<◌, ◌≤◌, OnOk, length, take};
ghost use Rattle.std.specs.Char.{digit_char};
ghost use Rattle.json.specs.Print.{escape, escape_byte, escape_letter, quoted};

use super::plain::is_short_plain;
use span_token::OutOfMemory;

/// Writes the text as a string, with its quotes.
pub(crate) fn write_text(out: &mut Vec<u8>, text: &[u8]) -> Result<(), OutOfMemory>
    ensures { OnOk result (out.new.items ≡ out.old.items ++ quoted text.now) }
{
    out.push(b'"')?;
    write_escaped(out, text)?;
    out.push(b'"')?;
    Ok(())
}

/// Writes what stands between the quotes, 16 bytes at a time.
fn write_escaped(out: &mut Vec<u8>, text: &[u8]) -> Result<(), OutOfMemory>
    ensures { OnOk result (out.new.items ≡ out.old.items ++ escape text.now) }
{
    let mut at = 0;
    'text: while text.len() - at > 16 {
        write_piece(out, &text[at..at + 16])?;
        at += 16;
    }
    write_piece(out, &text[at..])
}

/// Writes a few bytes, which are copied at once where none of them needs an escape.
#[inline(always)]
fn write_piece(out: &mut Vec<u8>, piece: &[u8]) -> Result<(), OutOfMemory>
    requires { length piece.now ≤ 32 }
    ensures { OnOk result (out.new.items ≡ out.old.items ++ escape piece.now) }
{
    if !is_short_plain(piece) {
        return write_bytes(out, piece);
    }
    out.extend_from_slice(piece)?;
    Ok(())
}

/// Writes the bytes one by one.
fn write_bytes(out: &mut Vec<u8>, bytes: &[u8]) -> Result<(), OutOfMemory>
    ensures { OnOk result (out.new.items ≡ out.old.items ++ escape bytes.now) }
{
    'bytes: for &byte in bytes {
        write_byte(out, byte)?;
    }
    Ok(())
}

fn write_byte(out: &mut Vec<u8>, byte: u8) -> Result<(), OutOfMemory>
    ensures { OnOk result (out.new.items ≡ out.old.items ++ escape_byte byte) }
{
    let (escape, len) = escape_of(byte);
    out.extend_from_slice(&escape[..len])?;
    Ok(())
}

/// What stands in a string for the byte: so many bytes from the first on.
fn escape_of(byte: u8) -> ([u8; 6], usize)
    ensures value { take result.1 result.0 ≡ escape_byte byte }
    ensures bound { result.1 ≤ 6 }
{
    let letter = letter(byte);
    if letter > 0 {
        return ([b'\\', letter, 0, 0, 0, 0], 2);
    }
    if byte < 0x20 {
        return ([b'\\', b'u', b'0', b'0', hex(byte / 16), hex(byte % 16)], 6);
    }
    ([byte, 0, 0, 0, 0, 0], 1)
}

/// The letter of the byte's short escape, or 0 where it has none.
#[inline(always)]
fn letter(byte: u8) -> u8
    ensures { result ≡ escape_letter byte }
{
    match byte {
        b'"' | b'\\' => byte,
        8 => b'b',
        12 => b'f',
        b'\n' => b'n',
        b'\r' => b'r',
        b'\t' => b't',
        _ => 0,
    }
}

/// A digit of base 16.
fn hex(digit: u8) -> u8
    requires { digit < 16 }
    ensures { result ≡ digit_char digit }
{
    if digit < 10 {
        b'0' + digit
    } else {
        b'a' - 10 + digit
    }
}
