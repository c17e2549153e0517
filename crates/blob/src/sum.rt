// The sum of a content, which stands for the content where its bytes are not at hand.
ghost use Rattle.std.specs.Prelude.{◌≡◌};
ghost use Rattle.blob.specs.Sums.{sum_of};

use sha2::{Digest, Sha256};

/// The sum of a content: its length and its SHA-256. Contents of one sum are taken as one, which rests on SHA-256.
#[derive(Clone, Copy, Debug, PartialEq, Eq)]
pub struct Sum256 {
    /// The length in bytes.
    pub len: u64,
    /// The SHA-256 digest (FIPS 180-4), its first byte first.
    pub digest: [u8; 32],
}

/// The sum of these bytes, whatever they are: their length and their SHA-256 (FIPS 180-4). It takes no memory, and
/// time in proportion to the length.
pub fn sum_of(bytes: &[u8]) -> Sum256
    ensures { result ≡ sum_of bytes.now }
{
    Sum256 {
        len: bytes.len() as u64,
        digest: Sha256::digest(bytes),
    }
}

#[cfg(test)]
mod tests {
    use super::*;

    // The value of a lowercase hexadecimal digit.
    fn value_of(digit: u8) -> u8 {
        if digit < b'a' {
            digit.wrapping_sub(b'0')
        } else {
            digit - (b'a' - 10)
        }
    }

    fn is_spelled(digest: &[u8; 32], digits: &[u8; 64]) -> bool {
        for i in 0..32 {
            let (high, low) = (value_of(digits[2 * i]), value_of(digits[2 * i + 1]));
            if u32::from(digest[i]) != 16 * u32::from(high) + u32::from(low) {
                return false;
            }
        }
        true
    }

    // The digests that FIPS 180-4's examples and the common tools print.
    #[test]
    fn digests_are_the_published_ones(rt: HostRuntime) {
        let nothing = sum_of(b"");
        assert!(rt;
            is_spelled(
                &nothing.digest,
                b"e3b0c44298fc1c149afbf4c8996fb92427ae41e4649b934ca495991b7852b855"
            )
        );
        let abc = sum_of(b"abc");
        assert!(rt;
            is_spelled(
                &abc.digest,
                b"ba7816bf8f01cfea414140de5dae2223b00361a396177a9cb410ff61f20015ad"
            )
        );
        let hello = sum_of(b"hello");
        assert!(rt;
            is_spelled(
                &hello.digest,
                b"2cf24dba5fb0a30e26e83b2ac5b9e29e1b161e5c1fa7425e73043362938b9824"
            )
        );
        assert_eq!(rt; (nothing.len, abc.len, hello.len), (0, 3, 5));
    }
}
