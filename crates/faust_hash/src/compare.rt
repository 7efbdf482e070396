ghost use Rattle.std.specs.Prelude.{◌≡◌, ◌↔◌, IsTrue};
ghost use Rattle.faust_hash.specs.Tag.{is_same};

/// Whether two tags have the same 32 bytes. It goes over all of them whatever it finds, as is usual for tags.
pub fn same(a: &[u8; 32], b: &[u8; 32]) -> bool
    ensures fact { IsTrue result ↔ (a.now ≡ b.now) }
    ensures test { result ≡ is_same a.now b.now }
{
    differences(a, b) == 0
}

// The bits in which the bytes at some place differ: 0 exactly where all bytes agree.
#[tactic(auto, using(crate::proofs::Lists::one_more_place))]
fn differences(a: &[u8; 32], b: &[u8; 32]) -> u8
    ensures { (result ≡ 0) ↔ (a.now ≡ b.now) }
{
    let mut bits = 0;
    for i in 0..32 {
        bits |= a[i] ^ b[i];
    }
    bits
}
