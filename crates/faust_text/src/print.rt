ghost use Rattle.std.specs.Prelude.{◌≡◌, ◌++◌, length, take, OnOk, OnErr};
ghost use Rattle.std.specs.Option.{option_copied};
ghost use Rattle.std.specs.Fmt.{decimal};
ghost use Rattle.hex.specs.Hex.{encode_lower};
ghost use Rattle.faust_text.specs.Values.{value_text};

use crate::spelling::is_all_plain;
use faust_types::{Bytes, OutOfMemory};

/// Puts a number's decimal digits behind the text. A refusal leaves the text as it was.
pub fn put_number(out: &mut Bytes, x: u64) -> Result<(), OutOfMemory>
    ensures ok { OnOk result (out.new ≡ out.old ++ decimal x) }
    ensures err { OnErr result (out.new ≡ out.old) }
{
    let mut digits = [0u8; 20];
    let mut at = digits.len();
    let mut rest = x;
    while rest >= 10 {
        at -= 1;
        digits[at] = b'0' + (rest % 10) as u8;
        rest /= 10;
    }
    at -= 1;
    digits[at] = b'0' + rest as u8;
    out.append(&digits[at..])
}

/// Puts a value behind the text: in quotation marks where all its bytes may stand there, and else in hexadecimal
/// digits behind `0x`; no value is `none`. A refusal leaves the text as it was.
pub fn put_value(out: &mut Bytes, value: Option<&[u8]>) -> Result<(), OutOfMemory>
    ensures ok { OnOk result (out.new ≡ out.old ++ value_text (option_copied value.entry)) }
    ensures err { OnErr result (out.new ≡ out.old) }
{
    let before = out.len();
    let written = put_value_parts(out, value);
    if written.is_err() {
        out.truncate(before);
    }
    written
}

fn put_value_parts(out: &mut Bytes, value: Option<&[u8]>) -> Result<(), OutOfMemory>
    ensures ok { OnOk result (out.new ≡ out.old ++ value_text (option_copied value.entry)) }
    ensures err { OnErr result (take (length out.old) out.new ≡ out.old) }
{
    match value {
        None => out.append(b"none"),
        Some(value) => {
            if is_all_plain(value) {
                out.push(b'"')?;
                out.append(value)?;
                out.push(b'"')
            } else {
                out.append(b"0x")?;
                put_hex(out, value)
            }
        }
    }
}

/// Puts bytes as lower-case hexadecimal digits behind the text. A refusal leaves the text as it was.
pub fn put_hex(out: &mut Bytes, bytes: &[u8]) -> Result<(), OutOfMemory>
    ensures ok { OnOk result (out.new ≡ out.old ++ encode_lower bytes.now) }
    ensures err { OnErr result (out.new ≡ out.old) }
{
    let digits = hex::encode(out.allocator(), bytes)?;
    out.append(digits.as_bytes())
}
