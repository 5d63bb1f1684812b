// The table's way to write a file: \n is byte 10, \xNN a byte by two digits, \\ and \" themselves; a quote ends the file.
ghost use Rattle.std.specs.Prelude.{◌<◌, length, IfSome};

use std::alloc::{AllocError, Global};

// A hexadecimal digit, and 0 for another byte.
fn digit(byte: u8) -> u8
    ensures { result < 16 }
{
    match byte {
        b'0'..=b'9' => byte - b'0',
        b'a'..=b'f' => byte - b'a' + 10,
        _ => 0,
    }
}

// The first byte that is meant before the quote, and what follows it.
fn first_meant(quoted: &[u8]) -> Option<(u8, &[u8])>
    ensures { IfSome result (λ r. length r.1.now < length quoted.now) }
{
    match quoted {
        [b'\\', b'n', rest @ ..] => Some((b'\n', rest)),
        [b'\\', b'x', high, low, rest @ ..] => Some((digit(*high) * 16 + digit(*low), rest)),
        // What ends too early means nothing.
        [b'\\'] | [b'\\', b'x', ..] => None,
        [b'\\', byte, rest @ ..] => Some((*byte, rest)),
        [] | [b'"', ..] => None,
        [byte, rest @ ..] => Some((*byte, rest)),
    }
}

pub(crate) fn unescaped(heap: Global, quoted: &[u8]) -> Result<Vec<u8>, AllocError> {
    let mut out = Vec::new(heap);
    let mut rest = quoted;
    while let Some((byte, after)) = first_meant(rest) {
        out.push(byte)?;
        rest = after;
    }
    Ok(out)
}
