ghost use Rattle.std.specs.Prelude.{◌<◌, ◌≤◌, length};

// How many tags are remembered.
pub(crate) const TAGS: usize = 4096;

// How many values are remembered.
pub(crate) const VALUES: usize = 1024;

// How many digests of chains are remembered.
pub(crate) const LINKS: usize = 1024;

// How many bytes of either end of a value its place comes of.
const END: usize = 64;

// An odd number whose product with a word spreads the word's bits.
const FACTOR: u64 = 0x9e37_79b9_7f4a_7c15;

// The place of a body in a table of tags. Bodies that differ may have one place.
pub(crate) fn tag_place(body: &[u8]) -> usize
    ensures { result < 4096 }
{
    spread(mixed(body, 0)) % TAGS
}

// The place of a value in a table of values, by its length and its ends.
pub(crate) fn value_place(value: &[u8]) -> usize
    ensures { result < 1024 }
{
    let len = value.len();
    let end = if len < END { len } else { END };
    let front = mixed(&value[..end], len as u64);
    spread(mixed(&value[len - end..], front)) % VALUES
}

// The place of a digest of a chain in a table of them, by the first bytes of the digest before and by the client.
pub(crate) fn link_place(before: Option<&[u8; 32]>, k: u8) -> usize
    ensures { result < 1024 }
{
    let front: &[u8] = match before {
        None => &[],
        Some(digest) => &digest[..8],
    };
    spread(mixed(front, u64::from(k))) % LINKS
}

// All bytes, 8 at a time, mixed into `start`.
fn mixed(bytes: &[u8], start: u64) -> u64 {
    let (words, rest) = bytes.as_chunks::<8>();
    let mut mix = start;
    for word in words {
        mix = with_word(mix, u64::from_le_bytes(*word));
    }
    with_word(mix, last_word(rest))
}

fn with_word(mix: u64, word: u64) -> u64 {
    (mix.rotate_left(5) ^ word).wrapping_mul(FACTOR)
}

// Fewer than 8 bytes as a word.
fn last_word(rest: &[u8]) -> u64
    requires { length rest.now ≤ 8 }
{
    let mut word = [0; 8];
    word[..rest.len()].copy_from_slice(rest);
    u64::from_le_bytes(word)
}

// A number in which the upper bits of a mix tell as much as the lower ones.
fn spread(mix: u64) -> usize {
    ((mix ^ (mix >> 32)).wrapping_mul(FACTOR) >> 32) as usize
}
