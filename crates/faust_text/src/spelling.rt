ghost use Rattle.std.specs.Prelude.{◌≡◌, ◌*◌, false, length, IfOk, IsTrue};
ghost use Rattle.hex.specs.Hex.{encode_lower};
ghost use Rattle.faust_types.specs.Bytes.{AreBytes};
ghost use Rattle.std.specs.List.{list_all};
ghost use Rattle.faust_text.specs.Values.{Decodes, Reads, bytes_of, digit_worth, hex_of, is_hex, is_plain, unquoted, value_of, within};

use crate::error::ValueError;
use faust_types::{Bytes, OutOfMemory};
use std::alloc::Global;

/// The value of a token: printable bytes without `"` and `\` between quotation marks, or hexadecimal digits behind
/// `0x`. `Bad` says that the token is no such thing, or that the value has more than `limit` bytes.
#[tactic(auto, unfolding(crate::specs::Values::value_of))]
pub fn value(alloc: Global, token: &[u8], limit: usize) -> Result<Bytes, ValueError>
    ensures { Reads result (value_of limit token.now) }
{
    match token {
        [b'"', body @ ..] => unquoted(alloc, body, limit),
        _ => bytes(alloc, token, limit),
    }
}

fn unquoted(alloc: Global, body: &[u8], limit: usize) -> Result<Bytes, ValueError>
    ensures { Reads result (within limit (unquoted body.now)) }
{
    let Some((mark, value)) = body.split_last() else {
        return Err(ValueError::Bad);
    };
    if *mark != b'"' || value.len() > limit || !is_all_plain(value) {
        return Err(ValueError::Bad);
    }
    Ok(Bytes::from_slice(alloc, value)?)
}

/// The bytes of a token: lower-case hexadecimal digits behind `0x`. `Bad` says that the token is no such thing, or
/// spells more than `limit` bytes.
pub fn bytes(alloc: Global, token: &[u8], limit: usize) -> Result<Bytes, ValueError>
    ensures { Reads result (bytes_of limit token.now) }
{
    match token {
        [b'0', b'x', digits @ ..] => hex_bytes(alloc, digits, limit),
        _ => Err(ValueError::Bad),
    }
}

/// The bytes that lower-case hexadecimal digits spell, two digits a byte. `Bad` says that the token is no such
/// thing, or spells more than `limit` bytes.
pub fn hex_bytes(alloc: Global, token: &[u8], limit: usize) -> Result<Bytes, ValueError>
    ensures { Reads result (hex_of limit token.now) }
{
    if token.len() / 2 > limit {
        return Err(ValueError::Bad);
    }
    decoded(alloc, token)
}

fn decoded(alloc: Global, digits: &[u8]) -> Result<Bytes, ValueError>
    ensures { Decodes digits.now result }
{
    if digits.len() % 2 != 0 {
        return Err(ValueError::Bad);
    }
    let mut bytes = zeros(alloc, digits.len() / 2)?;
    if decode_into(digits, bytes.as_mut_slice()) {
        Ok(Bytes::from_vec(bytes))
    } else {
        Err(ValueError::Bad)
    }
}

fn zeros(alloc: Global, count: usize) -> Result<Vec<u8>, OutOfMemory>
    ensures { IfOk result (λ bytes. length bytes.items ≡ count) }
{
    Ok(Vec::from_elem(alloc, 0, count)?)
}

/// Writes the bytes of digits, and says whether all are digits. It reads each of them once and never stops before
/// the last, so that the processor takes many at once.
fn decode_into(digits: &[u8], bytes: &mut [u8]) -> bool
    requires { length digits.now ≡ 2 * length bytes.old }
    ensures digits { IsTrue result → digits.now ≡ encode_lower bytes.new }
    ensures other { result ≡ false → list_all is_hex digits.now ≡ false }
    ensures bytes_each { AreBytes bytes.new }
{
    let mut greatest: u8 = 0;
    for i in 0..bytes.len() {
        let high = worth(digits[2 * i]);
        let low = worth(digits[2 * i + 1]);
        greatest = greatest.max(high.max(low));
        bytes[i] = high % 16 * 16 + low % 16;
    }
    greatest < 16
}

/// What a lower-case digit is worth: 16 where the byte is none.
fn worth(digit: u8) -> u8
    ensures { result ≡ digit_worth digit }
{
    match digit {
        b'0'..=b'9' => digit - b'0',
        b'a'..=b'f' => digit - b'a' + 10,
        _ => 16,
    }
}

/// Whether all bytes may stand between quotation marks. It looks at each byte, so that the processor takes many at once.
pub(crate) fn is_all_plain(bytes: &[u8]) -> bool
    ensures { result ≡ list_all is_plain bytes.now }
{
    let mut plain = true;
    for byte in bytes {
        plain &= is_plain(*byte);
    }
    plain
}

fn is_plain(byte: u8) -> bool
    ensures { result ≡ is_plain byte }
{
    matches!(byte, b' '..=b'~') && byte != b'"' && byte != b'\\'
}
