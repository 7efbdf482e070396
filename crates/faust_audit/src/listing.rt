//! The checked pairs of one entry, and the bodies that it makes.
ghost use Rattle.std.specs.Prelude.{◌≡◌, ◌<◌, length, map, slice_index_or, take, IfOk, OnOk, ◌+◌};
ghost use Rattle.faust_types.specs.Clients.{IsClient};
ghost use Rattle.faust_types.specs.Ranges.{IsConfig};
ghost use Rattle.faust_record.specs.Entries.{replay};
ghost use Rattle.faust_record.specs.Made.{made_bodies};
ghost use Rattle.faust_record.specs.Runs.{entries_of};
ghost use Rattle.faust_record.specs.declared.entry.Entry.{Entry};
ghost use Rattle.faust_premises.specs.Premises.{checked_pairs};
ghost use Rattle.faust_audit.specs.Audited.{pair_told};
ghost use Rattle.faust_audit.specs.Watching.{watched_of};

use crate::answers::{Bodies, Pair, Pairs};
use crate::book::Book;
use crate::checked::{Checked, checked_of};
use crate::making::bodies_made;
use crate::reading::reply_of;
use crate::watched::Watched;
use faust_hash::{PreparedKey, same};
use faust_record::{Entry, RunRecord};
use faust_types::{Config, OutOfMemory, Sequence};
use std::alloc::Global;

/// The checked pairs of entry q, which is there.
pub fn pairs(alloc: Global, rec: &RunRecord, q: u64) -> Result<Pairs, OutOfMemory>
    requires { q < length rec.now.entries }
    ensures { IfOk result (λ pairs. (d : Entry) →
        pairs ≡ map (pair_told rec.now.config.key) (checked_pairs rec.now.config (slice_index_or rec.now.entries q d))) }
{
    match rec.entry(q) {
        Some(entry) => pairs_of(alloc, rec.config(), entry),
        None => Ok(Sequence::new(alloc)),
    }
}

#[tactic(auto, unfolding(faust_premises::specs::Premises::checked_pairs))]
fn pairs_of(alloc: Global, config: &Config, entry: &Entry) -> Result<Pairs, OutOfMemory>
    requires { IsConfig config.now }
    ensures { IfOk result (λ pairs. pairs ≡ map (pair_told config.now.key) (checked_pairs config.now entry.now)) }
{
    let key = PreparedKey::new(config.key.as_slice());
    let reply = reply_of(alloc, config, &entry.input)?;
    let mut book = Book::new(alloc);
    let checked = checked_of(alloc, &mut book, config, &entry.input, &reply)?;
    let pairs = all_told(alloc, &key, &checked)?;
    Ok(pairs)
}

fn all_told(
    alloc: Global,
    key: &PreparedKey,
    pairs: &Sequence<Checked>,
) -> Result<Pairs, OutOfMemory>
    ensures { IfOk result (λ told. told ≡ map (pair_told key.now) pairs.now) }
{
    let mut out = Sequence::new(alloc);
    for pair in pairs.as_slice() {
        out.push(told(key, pair)?)?;
    }
    Ok(out)
}

fn told(key: &PreparedKey, pair: &Checked) -> Result<Pair, OutOfMemory>
    ensures { IfOk result (λ told. told ≡ pair_told key.now pair.now) }
{
    let body = pair.body().copy()?;
    let right = same(pair.tag(), &key.tag(body.as_slice()));
    Ok(Pair { body, right })
}

/// The bodies that entry q makes, which is there.
pub fn made(alloc: Global, rec: &RunRecord, q: u64) -> Result<Bodies, OutOfMemory>
    requires { q < length rec.now.entries }
    ensures { IfOk result (λ bodies. (d : Entry) →
        bodies ≡ made_bodies rec.now.config (take q rec.now.entries) (slice_index_or rec.now.entries q d)) }
{
    let config = rec.config();
    let Some(entry) = rec.entry(q) else {
        return Ok(Sequence::new(alloc));
    };
    let mut book = Book::new(alloc);
    let watched = watched_before(alloc, &mut book, rec, entry.client, q)?;
    let reply = reply_of(alloc, config, &entry.input)?;
    let seen = watched.see(alloc, &mut book, entry.client, entry, &reply)?;
    let bodies = bodies_made(alloc, entry.client, &watched, &seen.moved, &entry.outcome)?;
    Ok(bodies)
}

// What is kept of client i before entry q.
fn watched_before(
    alloc: Global,
    book: &mut Book,
    rec: &RunRecord,
    i: u8,
    q: u64,
) -> Result<Watched, OutOfMemory>
    requires place { q < length rec.now.entries }
    requires client { IsClient rec.now.config.clients i }
    ensures { IfOk result (λ watched. watched ≡ watched_of i (replay rec.now.config i (entries_of i (take q rec.now.entries)))) }
{
    let mut watched = Watched::new(alloc, rec.config().clients)?;
    for p in 0..q {
        pass_by(alloc, book, rec, i, p, &mut watched)?;
    }
    Ok(watched)
}

// What is kept of client i behind entry p, where this was kept before it.
fn pass_by(
    alloc: Global,
    book: &mut Book,
    rec: &RunRecord,
    i: u8,
    p: u64,
    watched: &mut Watched,
) -> Result<(), OutOfMemory>
    requires place { p < length rec.now.entries }
    requires client { IsClient rec.now.config.clients i }
    requires watched { watched.old ≡ watched_of i (replay rec.now.config i (entries_of i (take p rec.now.entries))) }
    ensures { OnOk result (watched.new ≡ watched_of i (replay rec.now.config i (entries_of i (take (p + 1) rec.now.entries)))) }
{
    let config = rec.config();
    let Some(entry) = rec.entry(p) else {
        return Ok(());
    };
    if entry.client != i {
        return Ok(());
    }
    let reply = reply_of(alloc, config, &entry.input)?;
    let seen = watched.see(alloc, book, i, entry, &reply)?;
    watched.go_on(seen.moved);
    Ok(())
}
