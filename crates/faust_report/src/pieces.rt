// The pieces that the lines of a report are made of.
ghost use Rattle.std.specs.Prelude.{◌≡◌, ◌∷◌, ◌++◌, codes, flat_map, map, OnOk};
ghost use Rattle.std.specs.Fmt.{decimal};
ghost use Rattle.faust_text.specs.Tokens.{joined};
ghost use Rattle.faust_text.specs.Values.{value_text};
ghost use Rattle.faust_report.specs.Text.{client_text, name_text, register_text};

use faust_text::{put_number, put_value};
use faust_types::{Bytes, OpName, OutOfMemory};

pub(crate) fn put_name(out: &mut Bytes, name: OpName) -> Result<(), OutOfMemory>
    ensures { OnOk result (out.new ≡ out.old ++ name_text name) }
{
    put_number(out, u64::from(name.client))?;
    out.push(b'.')?;
    put_number(out, name.t)
}

pub(crate) fn put_register(out: &mut Bytes, register: u8) -> Result<(), OutOfMemory>
    ensures { OnOk result (out.new ≡ out.old ++ register_text register) }
{
    out.push(b'X')?;
    put_number(out, u64::from(register))
}

pub(crate) fn put_client(out: &mut Bytes, client: u64) -> Result<(), OutOfMemory>
    ensures { OnOk result (out.new ≡ out.old ++ client_text client) }
{
    put_number(out, client)?;
    out.push(b':')
}

pub(crate) fn put_read_value(out: &mut Bytes, value: &Option<Bytes>) -> Result<(), OutOfMemory>
    ensures { OnOk result (out.new ≡ out.old ++ value_text value.now) }
{
    match value {
        None => put_value(out, None),
        Some(value) => put_value(out, Some(value.as_slice())),
    }
}

/// Puts a client and names behind the text, with a blank before each name.
pub(crate) fn put_client_names(
    out: &mut Bytes,
    client: u64,
    names: &[OpName],
) -> Result<(), OutOfMemory>
    ensures { OnOk result (out.new ≡ out.old ++ joined (client_text client ∷ map name_text names.now)) }
{
    put_client(out, client)?;
    put_names(out, names)
}

/// Puts a client and numbers behind the text, with a blank before each number.
pub(crate) fn put_client_numbers(
    out: &mut Bytes,
    client: u8,
    numbers: &[u64],
) -> Result<(), OutOfMemory>
    ensures { OnOk result (out.new ≡ out.old ++ joined (client_text client ∷ map decimal numbers.now)) }
{
    put_client(out, u64::from(client))?;
    put_numbers(out, numbers)
}

/// Puts a client and other clients behind the text, with a blank before each of these.
pub(crate) fn put_client_clients(
    out: &mut Bytes,
    client: u8,
    others: &[u8],
) -> Result<(), OutOfMemory>
    ensures { OnOk result (out.new ≡ out.old ++ joined (client_text client ∷ map decimal others.now)) }
{
    put_client(out, u64::from(client))?;
    put_clients(out, others)
}

/// Puts the title of the order and its names behind the text, with a blank before each name.
pub(crate) fn put_order_names(out: &mut Bytes, names: &[OpName]) -> Result<(), OutOfMemory>
    ensures { OnOk result (out.new ≡ out.old ++ joined (codes "order:" ∷ map name_text names.now)) }
{
    out.append(b"order:")?;
    put_names(out, names)
}

/// Puts names behind the text, each behind a blank.
fn put_names(out: &mut Bytes, names: &[OpName]) -> Result<(), OutOfMemory>
    ensures { OnOk result (out.new ≡ out.old ++ flat_map (λ name. 32 ∷ name_text name) names.now) }
{
    for name in names {
        out.push(b' ')?;
        put_name(out, *name)?;
    }
    Ok(())
}

/// Puts numbers behind the text, each behind a blank.
fn put_numbers(out: &mut Bytes, numbers: &[u64]) -> Result<(), OutOfMemory>
    ensures { OnOk result (out.new ≡ out.old ++ flat_map (λ x. 32 ∷ decimal x) numbers.now) }
{
    for x in numbers {
        out.push(b' ')?;
        put_number(out, *x)?;
    }
    Ok(())
}

/// Puts numbers of clients behind the text, each behind a blank.
fn put_clients(out: &mut Bytes, clients: &[u8]) -> Result<(), OutOfMemory>
    ensures { OnOk result (out.new ≡ out.old ++ flat_map (λ x. 32 ∷ decimal x) clients.now) }
{
    for client in clients {
        out.push(b' ')?;
        put_number(out, u64::from(*client))?;
    }
    Ok(())
}
