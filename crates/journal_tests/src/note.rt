// A record of any bytes.
ghost use Rattle.std.specs.Prelude.{◌≡◌, ◌<◌, ◌^◌, ◌++◌, length, MatchOption};
ghost use Rattle.std.specs.Int.{w64, to_be_bytes};

use cta_journal::{Record, RecordRead};
use std::alloc::{AllocError, Global};

/// A record whose body is any bytes.
#[derive(Drop)]
pub struct Note {
    pub bytes: Vec<u8>,
}

impl Note {
    pub fn of(alloc: Global, text: &str) -> Option<Note> {
        match text.as_bytes().to_vec(alloc) {
            Ok(bytes) => Some(Note { bytes }),
            Err(_) => None,
        }
    }
}

// A length of 8 bytes, and what stands behind it.
fn length_of(bytes: &[u8]) -> Option<(u64, &[u8])>
    ensures { MatchOption result (length bytes.now < 8) (λ r. bytes.now ≡ to_be_bytes w64 r.0 ++ r.1.now) }
{
    if bytes.len() < 8 {
        return None;
    }
    let (front, rest) = bytes.split_at(8);
    let len = u64::from_be_bytes([
        front[0], front[1], front[2], front[3], front[4], front[5], front[6], front[7],
    ]);
    Some((len, rest))
}

impl Record for Note {
    ghost body = { λ n. n.bytes.items };

    ghost fits = { λ n. length n.bytes.items < 2 ^ 64 };

    fn write_record(&self, alloc: Global) -> Result<Vec<u8>, AllocError> {
        let len = self.bytes.len() as u64;
        let mut out = Vec::new(alloc);
        out.extend_from_slice(&len.to_be_bytes())?;
        out.extend_from_slice(&self.bytes)?;
        Ok(out)
    }

    fn read_record(alloc: Global, bytes: &[u8]) -> Result<RecordRead<Note>, AllocError> {
        let Some((len, rest)) = length_of(bytes) else {
            return Ok(RecordRead::Need);
        };
        if len > rest.len() as u64 {
            return Ok(RecordRead::Need);
        }
        let body = rest[..len as usize].to_vec(alloc)?;
        Ok(RecordRead::Record {
            kept: Note { bytes: body },
            len: 8 + len,
        })
    }
}
