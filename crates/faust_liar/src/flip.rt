ghost use Rattle.std.specs.Prelude.{◌≡◌};
ghost use Rattle.faust_liar.specs.Edits.{flipped};

/// 32 bytes with the lowest bit of the last one turned.
pub fn flipped(bytes: [u8; 32]) -> [u8; 32]
    ensures { result ≡ flipped bytes }
{
    let mut turned = bytes;
    turned[31] ^= 1;
    turned
}
