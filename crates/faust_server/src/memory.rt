ghost use Rattle.std.specs.Prelude.{◌≡◌, replicate, IfOk, None};
ghost use Rattle.faust_types.specs.Messages.{value_of};
ghost use Rattle.faust_server.specs.Rows.{renewed};

use faust_types::{Kind, Mem, OutOfMemory, Submit, Tag};
use std::alloc::Global;

/// The memory of n clients that wrote nothing.
pub fn no_memory(alloc: Global, n: u8) -> Result<Vec<Option<Mem>>, OutOfMemory>
    ensures { IfOk result (λ list. list.items ≡ replicate n None) }
{
    let mut memory = Vec::with_capacity(alloc, usize::from(n))?;
    for _ in 0..n {
        memory.push(None)?;
    }
    Ok(memory)
}

/// An equal memory of its own for each client.
pub fn copies_of_memory(
    alloc: Global,
    memory: &[Option<Mem>],
) -> Result<Vec<Option<Mem>>, OutOfMemory>
    ensures { IfOk result (λ list. list.items ≡ memory.now) }
{
    let mut copies = Vec::with_capacity(alloc, memory.len())?;
    for held in memory {
        copies.push(copy_of_mem(held)?)?;
    }
    Ok(copies)
}

/// An equal memory of its own, or nothing.
pub fn copy_of_mem(held: &Option<Mem>) -> Result<Option<Mem>, OutOfMemory>
    ensures { IfOk result (λ copy. copy ≡ held.now) }
{
    match held {
        Some(mem) => Ok(Some(mem.copy()?)),
        None => Ok(None),
    }
}

/// What the memory becomes at an operation of its client.
pub fn renewed(held: Option<Mem>, m: Submit) -> Mem
    ensures { result ≡ renewed held m }
{
    let (t, tag) = (m.t, m.data_tag);
    match m.kind {
        Kind::Write => Mem {
            t,
            value: m.value,
            tag,
        },
        Kind::Read => refreshed(held, t, tag),
    }
}

/// The memory with its value kept, and another number and data tag.
pub fn refreshed(held: Option<Mem>, t: u64, tag: Tag) -> Mem
    ensures { result ≡ record { t = t; value = value_of held; tag = tag } }
{
    let value = match held {
        Some(mem) => mem.value,
        None => None,
    };
    Mem { t, value, tag }
}
