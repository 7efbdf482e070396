// The lines of a report that are of no entry.
ghost use Rattle.std.specs.Prelude.{◌≡◌, [], ◌∷◌, ◌++◌, OnOk, None};
ghost use Rattle.faust_text.specs.Lines.{ended_text};
ghost use Rattle.faust_report.specs.Text.{clients_line, departure_line, departure_word, entries_line, order_lines, view_line, view_lines};

use crate::pieces::{put_client_names, put_order_names};
use faust_text::put_number;
use faust_types::{Bytes, Names, OutOfMemory};

pub(crate) fn put_clients_line(out: &mut Bytes, clients: u8) -> Result<(), OutOfMemory>
    ensures { OnOk result (out.new ≡ out.old ++ (clients_line clients ++ 10 ∷ [])) }
{
    out.append(b"clients ")?;
    put_number(out, u64::from(clients))?;
    out.push(b'\n')
}

pub(crate) fn put_entries_line(out: &mut Bytes, entries: u64) -> Result<(), OutOfMemory>
    ensures { OnOk result (out.new ≡ out.old ++ (entries_line entries ++ 10 ∷ [])) }
{
    out.append(b"entries ")?;
    put_number(out, entries)?;
    out.push(b'\n')
}

/// Puts the lines of the views behind the text, from that of client 1 on.
pub(crate) fn put_views(out: &mut Bytes, views: &[Names]) -> Result<(), OutOfMemory>
    ensures { OnOk result (out.new ≡ out.old ++ ended_text (view_lines 1 views.now)) }
{
    for (place, names) in views.iter().enumerate() {
        put_view(out, place as u64 + 1, names)?;
    }
    Ok(())
}

fn put_view(out: &mut Bytes, client: u64, names: &Names) -> Result<(), OutOfMemory>
    ensures { OnOk result (out.new ≡ out.old ++ (view_line client names.now ++ 10 ∷ [])) }
{
    out.append(b"view ")?;
    put_client_names(out, client, names.as_slice())?;
    out.push(b'\n')
}

/// Puts the line of the first reply that departed behind the text.
pub fn put_departure(out: &mut Bytes, departure: Option<u64>) -> Result<(), OutOfMemory>
    ensures { OnOk result (out.new ≡ out.old ++ (departure_line departure ++ 10 ∷ [])) }
{
    out.append(b"departure ")?;
    put_departure_word(out, departure)?;
    out.push(b'\n')
}

fn put_departure_word(out: &mut Bytes, departure: Option<u64>) -> Result<(), OutOfMemory>
    ensures { OnOk result (out.new ≡ out.old ++ departure_word departure) }
{
    match departure {
        None => out.append(b"none"),
        Some(entry) => put_number(out, entry),
    }
}

/// Puts the line of the order behind the text, where no reply departed.
pub(crate) fn put_order(
    out: &mut Bytes,
    departure: Option<u64>,
    order: &Names,
) -> Result<(), OutOfMemory>
    ensures { OnOk result (out.new ≡ out.old ++ ended_text (order_lines departure order.now)) }
{
    match departure {
        None => put_order_line(out, order),
        Some(_) => Ok(()),
    }
}

fn put_order_line(out: &mut Bytes, order: &Names) -> Result<(), OutOfMemory>
    ensures { OnOk result (out.new ≡ out.old ++ ended_text (order_lines None order.now)) }
{
    put_order_names(out, order.as_slice())?;
    out.push(b'\n')
}
