ghost use Rattle.std.specs.Prelude.{◌≡◌, ◌≤◌, ◌∷◌, ◌++◌, length, flat_map, OnOk, IfSome};
ghost use Rattle.faust_types.specs.Spelling.{be64, optional};
ghost use Rattle.faust_wire.specs.Grammar.{riding_bytes, commit_content, signed_bytes, value_bytes, optional_value_bytes, memory_bytes, tuple_bytes, read_part_bytes, written_bytes};

use crate::numbers::FIRST_WIRE;
use faust_types::spelling::{ABSENT, PRESENT, byte_of_kind, put_optional};
use faust_types::{Bytes, Commit, Known, Mem, OutOfMemory, ReadPart, Tag, Tuple, Version};

#[tactic(auto, unfolding(faust_types::specs::Spelling::be64))]
pub(crate) fn put_number(t: u64, out: &mut Bytes) -> Result<(), OutOfMemory>
    ensures { OnOk result (out.new ≡ out.old ++ be64 t) }
{
    out.append(&t.to_be_bytes())
}

#[tactic(auto, unfolding(crate::specs::Grammar::signed_bytes))]
pub(crate) fn put_signed(known: &Known, out: &mut Bytes) -> Result<(), OutOfMemory>
    ensures { OnOk result (out.new ≡ out.old ++ signed_bytes known.now) }
{
    if known.version.is_initial() {
        return out.push(ABSENT);
    }
    out.push(PRESENT)?;
    known.version.put(out)?;
    out.append(&known.tag)
}

#[tactic(auto, unfolding(crate::specs::Grammar::value_bytes))]
fn put_value(value: &Bytes, out: &mut Bytes) -> Result<(), OutOfMemory>
    requires { length value.now ≤ 4096 }
    ensures { OnOk result (out.new ≡ out.old ++ value_bytes value.now) }
{
    out.append(&(value.len() as u16).to_be_bytes())?;
    out.append(value.as_slice())
}

pub(crate) fn put_written(value: &Option<Bytes>, out: &mut Bytes) -> Result<(), OutOfMemory>
    requires { IfSome value.now (λ bytes. length bytes ≤ 4096) }
    ensures { OnOk result (out.new ≡ out.old ++ written_bytes value.now) }
{
    match value {
        None => Ok(()),
        Some(value) => put_value(value, out),
    }
}

fn put_optional_value(value: &Option<Bytes>, out: &mut Bytes) -> Result<(), OutOfMemory>
    requires { IfSome value.now (λ bytes. length bytes ≤ 4096) }
    ensures { OnOk result (out.new ≡ out.old ++ optional_value_bytes value.now) }
{
    match value {
        None => out.push(ABSENT),
        Some(value) => {
            out.push(PRESENT)?;
            put_value(value, out)
        }
    }
}

fn put_memory(mem: &Option<Mem>, out: &mut Bytes) -> Result<(), OutOfMemory>
    requires { IfSome mem.now (λ mem. IfSome mem.value (λ bytes. length bytes ≤ 4096)) }
    ensures { OnOk result (out.new ≡ out.old ++ memory_bytes mem.now) }
{
    match mem {
        None => out.push(ABSENT),
        Some(mem) => {
            out.push(PRESENT)?;
            put_number(mem.t, out)?;
            put_optional_value(&mem.value, out)?;
            out.append(&mem.tag)
        }
    }
}

pub(crate) fn put_read_part(part: &Option<ReadPart>, out: &mut Bytes) -> Result<(), OutOfMemory>
    requires { IfSome part.now (λ part. IfSome part.mem (λ mem. IfSome mem.value (λ bytes. length bytes ≤ 4096))) }
    ensures { OnOk result (out.new ≡ out.old ++ read_part_bytes part.now) }
{
    match part {
        None => out.push(ABSENT),
        Some(part) => {
            out.append(&[PRESENT, part.register])?;
            put_signed(&part.version, out)?;
            put_memory(&part.mem, out)
        }
    }
}

fn put_tuple(tuple: &Tuple, out: &mut Bytes) -> Result<(), OutOfMemory>
    ensures { OnOk result (out.new ≡ out.old ++ tuple_bytes tuple.now) }
{
    out.append(&[tuple.client, byte_of_kind(tuple.kind), tuple.register])?;
    out.append(&tuple.tag)
}

pub(crate) fn put_pending(tuples: &[Tuple], out: &mut Bytes) -> Result<(), OutOfMemory>
    requires { length tuples.now ≤ 31 }
    ensures { OnOk result (out.new ≡ out.old ++ length tuples.now ∷ flat_map tuple_bytes tuples.now) }
{
    out.push(tuples.len() as u8)?;
    for tuple in tuples {
        put_tuple(tuple, out)?;
    }
    Ok(())
}

pub(crate) fn put_proofs(proofs: &[Option<Tag>], out: &mut Bytes) -> Result<(), OutOfMemory>
    ensures { OnOk result (out.new ≡ out.old ++ flat_map optional proofs.now) }
{
    for proof in proofs {
        put_optional(*proof, out)?;
    }
    Ok(())
}

pub(crate) fn put_commit(
    version: &Version,
    commit_tag: &Tag,
    proof_tag: &Tag,
    out: &mut Bytes,
) -> Result<(), OutOfMemory>
    ensures { OnOk result (out.new ≡ out.old ++ commit_content (record { version = version.now; commit_tag = commit_tag.now; proof_tag = proof_tag.now })) }
{
    version.put(out)?;
    out.append(commit_tag)?;
    out.append(proof_tag)
}

pub(crate) fn put_riding(
    wire: u8,
    commit: &Option<Commit>,
    out: &mut Bytes,
) -> Result<(), OutOfMemory>
    ensures { OnOk result (out.new ≡ out.old ++ riding_bytes wire commit.now) }
{
    if wire == FIRST_WIRE {
        return Ok(());
    }
    match commit {
        None => out.push(ABSENT),
        Some(commit) => {
            out.push(PRESENT)?;
            put_commit(&commit.version, &commit.commit_tag, &commit.proof_tag, out)
        }
    }
}
