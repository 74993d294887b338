// The checksum.
ghost use Rattle.std.specs.Prelude.{◌≡◌, ◌+◌, ◌<◌, ◌≤◌, length};
ghost use Rattle.frame.specs.Sum.{sum_of, checksum_of};

// How many bytes make a block.
const BLOCK: usize = 8;

// A sum and the bytes of a part, which are at most the eight of a block.
fn added(sum: u32, part: &[u8]) -> u32
    requires { (sum < 256) × (length part.now ≤ 8) }
    ensures { result ≡ sum + sum_of part.now }
{
    sum + part.iter().map(|x| u32::from(*x)).sum::<u32>()
}

// The sum of the bytes, modulo 256. It is taken in blocks of eight with one remainder a block; what is left over after
// the last whole block comes behind it.
pub fn checksum(bytes: &[u8]) -> u8
    ensures { result ≡ checksum_of bytes.now }
{
    let mut sum = 0;
    let mut left = bytes;
    // `as_chunks` is proved too; from 64 bytes on the compiler then puts the bytes of eight blocks together one by one,
    // which takes up to twice the time.
    while let Some((block, rest)) = left.split_first_chunk::<BLOCK>() {
        sum = added(sum, block) % 256;
        left = rest;
    }
    (added(sum, left) % 256) as u8
}
