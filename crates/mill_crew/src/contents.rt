// The bytes of contents.
ghost use Rattle.std.specs.Prelude.{◌≡◌, ◌%◌, ◌+◌, ◌<◌, ◌^◌, IfSome, length, sum, true};
ghost use Rattle.mill_crew.specs.Contents.{HasTotal};

use blob::{Blob, Sum256};

// The bytes of a slice, added up modulo 2^64.
fn total_of(bytes: &[u8]) -> u64
    ensures { result ≡ sum bytes.now % 2 ^ 64 }
{
    let mut total: u64 = 0;
    for byte in bytes {
        total = total.wrapping_add(u64::from(*byte));
    }
    total
}

// The bytes of a content, which are at most 4096, added up.
fn content_total(blob: &Blob) -> u64
    requires { length blob.now < 4097 }
    ensures { result ≡ sum blob.now % 2 ^ 64 }
{
    let mut piece = [0; 4096];
    let count = blob.piece(0, &mut piece);
    total_of(&piece[..count])
}

fn is_same(a: &Sum256, b: &Sum256) -> bool
    ensures { result ≡ true → a.now ≡ b.now }
{
    *a == *b
}

// The bytes of a content added up modulo 2^64, where it has this sum and at most 4096 bytes, as each file of a mill has.
pub(crate) fn checked_total(wanted: &Sum256, blob: &Blob) -> Option<u64>
    ensures { IfSome result (HasTotal wanted.now) }
{
    let sum = blob.sum();
    if !is_same(&sum, wanted) || sum.len > 4096 {
        return None;
    }
    Some(content_total(blob))
}
