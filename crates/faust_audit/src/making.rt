//! The bodies that an entry makes.
ghost use Rattle.std.specs.Prelude.{◌≡◌, ◌++◌, IfOk, OnOk, map};
ghost use Rattle.faust_types.specs.Clients.{IsClient};
ghost use Rattle.faust_types.specs.Versions.{clients_of};
ghost use Rattle.faust_record.specs.Made.{bodies_of_completion};
ghost use Rattle.faust_audit.specs.Watching.{IsMoveFor, begin_bodies, bodies_seen, post_body};

use crate::answers::Bodies;
use crate::watched::{Beginning, Move, Watched};
use faust_record::Given;
use faust_tags::{commit_body, data_body, proof_body, submit_body};
use faust_types::{Bytes, OutOfMemory, Post, Sequence, Version};
use std::alloc::Global;

// How many bytes a tag has, and the bytes that a body of a message between clients begins with: its kind, and the
// version of the wire that it is spelled by.
const TAG_LEN: usize = 32;

const PEER: u8 = 5;

const WIRE_VERSION: u8 = 1;

/// The bodies that an entry of client `me` makes, of which this change was seen.
pub fn bodies_made(
    alloc: Global,
    me: u8,
    watched: &Watched,
    moved: &Move,
    given: &Given,
) -> Result<Bodies, OutOfMemory>
    requires client { IsClient (clients_of watched.now.own) me }
    requires moved { IsMoveFor (clients_of watched.now.own) moved.now }
    ensures { IfOk result (λ bodies. bodies ≡ bodies_seen me watched.now moved.now given.now) }
{
    let mut out = Sequence::new(alloc);
    put_posts(alloc, given.to_peers(), &mut out)?;
    match moved {
        Move::Begins(begins) => put_begin(alloc, me, watched, begins, &mut out)?,
        Move::Completes(next) => put_completion(alloc, me, next, &mut out)?,
        Move::Stays => {}
    }
    Ok(out)
}

fn put_posts(alloc: Global, posts: &[Post], out: &mut Bodies) -> Result<(), OutOfMemory>
    ensures { OnOk result (out.new ≡ out.old ++ map post_body posts.now) }
{
    for post in posts {
        out.push(post_body(alloc, post)?)?;
    }
    Ok(())
}

fn post_body(alloc: Global, post: &Post) -> Result<Bytes, OutOfMemory>
    ensures { IfOk result (λ body. body ≡ post_body post.now) }
{
    let bytes = post.bytes.as_slice();
    let end = bytes.len().saturating_sub(TAG_LEN);
    let mut body = Bytes::new(alloc);
    body.append(&[PEER, WIRE_VERSION])?;
    if end >= 1 {
        body.append(&bytes[1..end])?;
    }
    Ok(body)
}

fn put_begin(
    alloc: Global,
    me: u8,
    watched: &Watched,
    begins: &Beginning,
    out: &mut Bodies,
) -> Result<(), OutOfMemory>
    ensures { OnOk result (out.new ≡ out.old ++ begin_bodies me watched.now begins.now) }
{
    let op = &begins.op;
    out.push(submit_body(alloc, me, op.kind, op.register, op.name.t)?)?;
    let last = begins.written.or(watched.last);
    out.push(data_body(alloc, me, op.name.t, last.as_ref())?)
}

fn put_completion(
    alloc: Global,
    me: u8,
    next: &Version,
    out: &mut Bodies,
) -> Result<(), OutOfMemory>
    requires { IsClient (clients_of next.now) me }
    ensures { OnOk result (out.new ≡ out.old ++ bodies_of_completion me next.now) }
{
    out.push(commit_body(alloc, me, next)?)?;
    let digest = next.digest(me).unwrap_or([0; 32]);
    out.push(proof_body(alloc, me, &digest)?)
}
