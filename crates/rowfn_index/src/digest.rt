//! Digests of bytes.
ghost use Rattle.std.specs.Prelude.{◌≡◌, take};
ghost use Rattle.rowfn_index.specs.Digests.{digest, digest_step};

/// By what the digest of the bytes before is multiplied: odd, so that no bit is lost.
const FACTOR: u64 = 1_099_511_628_211;

/// The digest of no bytes.
const NONE: u64 = 14_695_981_039_346_656_037;

/// The digest of bytes and one more.
#[inline(always)]
fn digest_step(before: u64, byte: u8) -> u64
    ensures { result ≡ digest_step before byte }
{
    before.wrapping_mul(FACTOR).wrapping_add(byte as u64)
}

/// The digest of bytes: that of all but the last times an odd number, and the last, modulo 2^64. So two
/// texts of one length that differ in one byte have different digests.
pub fn digest_of(bytes: &[u8]) -> u64
    ensures { result ≡ digest bytes.now }
{
    let mut digest = NONE;
    for byte in bytes {
        digest = digest_step(digest, *byte);
    }
    digest
}
