ghost use Rattle.std.specs.Prelude.{◌≡◌, [], ◌∷◌, ◌++◌, codes, IfOk, OnOk, OnErr};
ghost use Rattle.hex.specs.Hex.{encode_lower};
ghost use Rattle.faust_text.specs.Heads.{head_text, named_number, title_line, wire_lines};
ghost use Rattle.faust_text.specs.Lines.{ended_text};
ghost use Rattle.faust_text.specs.Tokens.{joined};

use crate::head::Title;
use crate::print::{put_hex, put_number};
use faust_types::{Bytes, Config, OutOfMemory};
use std::alloc::Global;

/// Puts the lines of a head behind the text. Format 1 has no line of the wire, and so stands for a
/// config of wire 1; any other is printed as format 2. A refusal leaves the text as it was.
pub fn put_head(
    out: &mut Bytes,
    title: Title,
    format: u8,
    config: &Config,
) -> Result<(), OutOfMemory>
    ensures ok { OnOk result (out.new ≡ out.old ++ head_text title format config.now) }
    ensures err { OnErr result (out.new ≡ out.old) }
{
    let text = head_text(out.allocator(), title, format, config)?;
    out.append(text.as_slice())
}

fn head_text(alloc: Global, title: Title, format: u8, config: &Config) -> Result<Bytes, OutOfMemory>
    ensures { IfOk result (λ text. text ≡ head_text title format config.now) }
{
    let mut text = Bytes::new(alloc);
    put_title(&mut text, title, format)?;
    put_wire(&mut text, format, config.wire)?;
    put_named(&mut text, b"clients", u64::from(config.clients))?;
    put_key(&mut text, config.key.as_slice())?;
    put_named(&mut text, b"delta", config.delta)?;
    put_named(&mut text, b"dummy", config.dummy)?;
    Ok(text)
}

fn put_title(text: &mut Bytes, title: Title, format: u8) -> Result<(), OutOfMemory>
    ensures { OnOk result (text.new ≡ text.old ++ (title_line title format ++ 10 ∷ [])) }
{
    text.append(title.word())?;
    if format == 1 {
        text.append(b" 1\n")
    } else {
        text.append(b" 2\n")
    }
}

fn put_wire(text: &mut Bytes, format: u8, wire: u8) -> Result<(), OutOfMemory>
    ensures { OnOk result (text.new ≡ text.old ++ ended_text (wire_lines format wire)) }
{
    if format == 1 {
        Ok(())
    } else {
        put_named(text, b"wire", u64::from(wire))
    }
}

fn put_named(text: &mut Bytes, name: &[u8], x: u64) -> Result<(), OutOfMemory>
    ensures { OnOk result (text.new ≡ text.old ++ (named_number name.now x ++ 10 ∷ [])) }
{
    text.append(name)?;
    text.push(b' ')?;
    put_number(text, x)?;
    text.push(b'\n')
}

fn put_key(text: &mut Bytes, key: &[u8]) -> Result<(), OutOfMemory>
    ensures { OnOk result (text.new ≡ text.old ++ (joined (codes "key" ∷ encode_lower key.now ∷ []) ++ 10 ∷ [])) }
{
    text.append(b"key ")?;
    put_hex(text, key)?;
    text.push(b'\n')
}
