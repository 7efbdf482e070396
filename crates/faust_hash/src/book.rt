// What a key and its copies computed before.
ghost use Rattle.std.specs.Prelude.{◌≡◌, ◌↔◌, IfSome, IsTrue};
ghost use Rattle.std.specs.Arc.{arc_value};
ghost use Rattle.std.specs.Option.{option_copied};
ghost use Rattle.faust_hash.specs.Chain.{link, value_digest_of};
ghost use Rattle.faust_hash.specs.Hmac.{tag_under};

use crate::compare::same;
use crate::places::{LINKS, TAGS, VALUES, link_place, tag_place, value_place};
use std::alloc::{AllocError, Global};
use std::sync::{Arc, Mutex};

// A body with its tag under the key of this block.
#[derive(Drop)]
struct Made {
    block: [u8; 64],
    body: Vec<u8>,
    tag: [u8; 32],
    ghost right: { tag ≡ tag_under block body.items },
}

// A value with its digest.
#[derive(Drop)]
struct Digested {
    value: Arc<Vec<u8>, Global>,
    digest: [u8; 32],
    ghost right: { digest ≡ value_digest_of (arc_value value).items },
}

// The digest of a chain with what its last link is made of: the digest before and the client.
#[derive(Drop)]
struct Linked {
    before: Option<[u8; 32]>,
    client: u8,
    digest: [u8; 32],
    ghost right: { digest ≡ link before client },
}

// Tags by their bodies, digests of values, and digests of chains by what each link is made of. Each table has a
// fixed number of places, and where two fall into one place the later stays. A table that another thread uses is
// passed over: nothing waits.
#[derive(Drop)]
pub(crate) struct Book {
    alloc: Global,
    tags: Arc<Mutex<Vec<Option<Made>>>, Global>,
    values: Arc<Mutex<Vec<Option<Digested>>>, Global>,
    links: Arc<Mutex<Vec<Option<Linked>>>, Global>,
}

impl Book {
    // A book in which nothing stands.
    pub(crate) fn new(alloc: Global) -> Result<Book, AllocError> {
        let mut tags = Vec::new(alloc);
        tags.resize_with(TAGS, || None)?;
        let mut values = Vec::new(alloc);
        values.resize_with(VALUES, || None)?;
        let mut links = Vec::new(alloc);
        links.resize_with(LINKS, || None)?;
        Ok(Book {
            alloc,
            tags: Arc::new(alloc, Mutex::new(tags))?,
            values: Arc::new(alloc, Mutex::new(values))?,
            links: Arc::new(alloc, Mutex::new(links))?,
        })
    }

    // The same book once more.
    pub(crate) fn shared(&self) -> Option<Book> {
        Some(Book {
            alloc: self.alloc,
            tags: Arc::try_clone(&self.tags).ok()?,
            values: Arc::try_clone(&self.values).ok()?,
            links: Arc::try_clone(&self.links).ok()?,
        })
    }

    // The tag of the body under the key of this block, if it stands here.
    pub(crate) fn tag(&self, block: &[u8; 64], body: &[u8]) -> Option<[u8; 32]>
        ensures { IfSome result (λ tag. tag ≡ tag_under block.now body.now) }
    {
        let tags = self.tags.try_lock()?;
        let made = tags.get(tag_place(body))?.as_ref()?;
        made.tag_of(block, body)
    }

    // Puts a tag at the place of its body.
    pub(crate) fn put_tag(&self, block: &[u8; 64], body: &[u8], tag: [u8; 32])
        requires { tag ≡ tag_under block.now body.now }
    {
        let Ok(copy) = Vec::from_slice(self.alloc, body) else {
            return;
        };
        let made = Made {
            block: *block,
            body: copy,
            tag,
        };
        let Some(mut tags) = self.tags.try_lock() else {
            return;
        };
        if let Some(place) = tags.get_mut(tag_place(body)) {
            *place = Some(made);
        }
    }

    // The digest of the value, if it stands here.
    pub(crate) fn digest(&self, value: &[u8]) -> Option<[u8; 32]>
        ensures { IfSome result (λ digest. digest ≡ value_digest_of value.now) }
    {
        let values = self.values.try_lock()?;
        let digested = values.get(value_place(value))?.as_ref()?;
        digested.digest_of(value)
    }

    // The value as it stands here.
    pub(crate) fn value(&self, value: &[u8]) -> Option<Arc<Vec<u8>, Global>>
        ensures { IfSome result (λ shared. (arc_value shared).items ≡ value.now) }
    {
        let values = self.values.try_lock()?;
        let digested = values.get(value_place(value))?.as_ref()?;
        digested.shared(value)
    }

    // Puts a digest, with a copy of its value, at the place of the value.
    pub(crate) fn put_digest(&self, value: &[u8], digest: [u8; 32])
        requires { digest ≡ value_digest_of value.now }
    {
        let Some(digested) = Digested::of(self.alloc, value, digest) else {
            return;
        };
        let Some(mut values) = self.values.try_lock() else {
            return;
        };
        if let Some(place) = values.get_mut(value_place(value)) {
            *place = Some(digested);
        }
    }

    // The digest of the chain with client `k` behind the chain of the digest before, if it stands here.
    pub(crate) fn link(&self, before: Option<&[u8; 32]>, k: u8) -> Option<[u8; 32]>
        ensures { IfSome result (λ digest. digest ≡ link (option_copied before.entry) k) }
    {
        let links = self.links.try_lock()?;
        let linked = links.get(link_place(before, k))?.as_ref()?;
        linked.digest_of(before, k)
    }

    // Puts the digest of a chain at the place of the digest before and the client.
    pub(crate) fn put_link(&self, before: Option<&[u8; 32]>, k: u8, digest: [u8; 32])
        requires { digest ≡ link (option_copied before) k }
    {
        let linked = Linked {
            before: before.copied(),
            client: k,
            digest,
        };
        let Some(mut links) = self.links.try_lock() else {
            return;
        };
        if let Some(place) = links.get_mut(link_place(before, k)) {
            *place = Some(linked);
        }
    }
}

impl Made {
    // The tag, if it is that of this body under the key of this block.
    fn tag_of(&self, block: &[u8; 64], body: &[u8]) -> Option<[u8; 32]>
        ensures { IfSome result (λ tag. tag ≡ tag_under block.now body.now) }
    {
        if self.body.as_slice() == body && self.block == *block {
            Some(self.tag)
        } else {
            None
        }
    }
}

impl Digested {
    // A copy of the value with its digest.
    fn of(alloc: Global, value: &[u8], digest: [u8; 32]) -> Option<Digested>
        requires { digest ≡ value_digest_of value.now }
    {
        let copy = Vec::from_slice(alloc, value).ok()?;
        let value = Arc::new(alloc, copy).ok()?;
        Some(Digested { value, digest })
    }

    // The digest, if it is that of this value.
    fn digest_of(&self, value: &[u8]) -> Option<[u8; 32]>
        ensures { IfSome result (λ digest. digest ≡ value_digest_of value.now) }
    {
        if self.value.as_slice() == value {
            Some(self.digest)
        } else {
            None
        }
    }

    // The value, if it is this one.
    fn shared(&self, value: &[u8]) -> Option<Arc<Vec<u8>, Global>>
        ensures { IfSome result (λ shared. (arc_value shared).items ≡ value.now) }
    {
        if self.value.as_slice() == value {
            Arc::try_clone(&self.value).ok()
        } else {
            None
        }
    }
}

impl Linked {
    // The digest, if it is that of client `k` behind the chain of this digest.
    fn digest_of(&self, before: Option<&[u8; 32]>, k: u8) -> Option<[u8; 32]>
        ensures { IfSome result (λ digest. digest ≡ link (option_copied before.entry) k) }
    {
        if self.client == k && is_before(&self.before, before) {
            Some(self.digest)
        } else {
            None
        }
    }
}

// Whether the digest before that is remembered is this one.
fn is_before(remembered: &Option<[u8; 32]>, before: Option<&[u8; 32]>) -> bool
    ensures { IsTrue result ↔ (remembered.now ≡ option_copied before.entry) }
{
    match (remembered, before) {
        (None, None) => true,
        (Some(remembered), Some(before)) => same(remembered, before),
        _ => false,
    }
}
