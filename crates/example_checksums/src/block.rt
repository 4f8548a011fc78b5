//! A block of bytes, whose checksum is to be computed.
ghost use Rattle.std.specs.Prelude.{◌≡◌};
ghost use Rattle.example_checksums.specs.Checksums.{checksum_of};

use job_pool::{Job, Work};

/// The checksum of no bytes.
const START: u64 = 0xcbf2_9ce4_8422_2325;

/// The factor by which the checksum is multiplied for each byte.
const PRIME: u64 = 0x0100_0000_01b3;

/// Returns the checksum of the bytes, FNV-1a of 64 bits.
fn checksum(bytes: &[u8]) -> u64
    ensures { result ≡ checksum_of bytes.now }
{
    bytes.iter().fold(
        START,
        |sum, byte| (sum ^ u64::from(*byte)).wrapping_mul(PRIME),
    )
}

/// A block of bytes. Its job is to compute its checksum.
#[derive(Drop)]
pub struct Block<'a>(pub &'a [u8]);

impl Job for Block<'_> {
    ghost use Rattle.job_pool.specs.declared.job.Work.TheVariants.{Value};
    ghost use Rattle.example_checksums.specs.Checksums.{checksum_of};

    ghost state = { λ b. b.0.now };

    ghost gives = { λ b. Value (checksum_of b.0.now) };

    ghost next = { λ b. b.0.now };

    fn work(&mut self) -> Work {
        Work::Value(checksum(self.0))
    }
}
