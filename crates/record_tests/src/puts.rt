// The Put of `hello` under `/atlas/a`, and its record.
use crate::records::joined;
use blob::{Blob, Sum256, sum_of};
use cta_model::{Actor, Answer, Ask, Entry, Rows, Text, Who};
use cta_records::Kept;
use std::alloc::Global;
use std::sync::Arc;

// The Put of `hello` under `/atlas/a`, at the moment 100, by a caller with no names; nothing was evicted for it. The length of
// the body, 97; the moment; a caller, with an empty requester and an empty group; and Put, by the same.
const BEGINS: &[u8] = b"\0\0\0\0\0\0\0\x61\0\0\0\0\0\0\0\x64\x01\0\0\0\0\0\0\0\0\0\0\0\0\0\0\0\0\0";

// A path of 8 bytes; the content's length, 5; and its SHA-256.
const NAMES: &[u8] =
    b"\0\0\0\x08/atlas/a\0\0\0\0\0\0\0\x05\x2c\xf2\x4d\xba\x5f\xb0\xa3\x0e\x26\xe8\x3b\x2a\xc5\xb9\xe2\x9e\x1b\x16\x1e\x5c\x1f\xa7\x42\x5e\x73\x04\x33\x62\x93\x8b\x98\x24";

// Stored, with no file evicted; and a content of 5 bytes.
const ENDS: &[u8] = b"\0\0\0\0\0\x01\0\0\0\0\0\0\0\x05hello";

/// The record of that Put.
pub fn put_bytes(alloc: Global) -> Option<Vec<u8>> {
    joined(alloc, BEGINS, NAMES, ENDS).ok()
}

fn nobody(alloc: Global) -> Who {
    Who {
        requester: Text::of(String::new(alloc)),
        group: Text::of(String::new(alloc)),
    }
}

fn put_entry(alloc: Global, path: String, sum: Sum256) -> Entry {
    let who = nobody(alloc);
    let path = Text::of(path);
    Entry {
        at: 100,
        actor: Actor::Caller(nobody(alloc)),
        ask: Ask::Put { who, path, sum },
        answer: Answer::Stored {
            evicted: Rows::of(Vec::new(alloc)),
        },
    }
}

fn blob_of(alloc: Global, bytes: &[u8]) -> Option<Arc<Blob, Global>> {
    let bytes = bytes.to_vec(alloc).ok()?;
    let blob = Blob::of(bytes).ok()?;
    Arc::new(alloc, blob).ok()
}

/// A Put of this content under this path, at the moment 100, by a caller with no names.
pub fn put_of(alloc: Global, path: &str, content: &[u8]) -> Option<Kept> {
    let path = String::from_str(alloc, path).ok()?;
    let blob = blob_of(alloc, content)?;
    Some(Kept {
        entry: put_entry(alloc, path, sum_of(content)),
        blob: Some(blob),
    })
}

// Whether the content has these bytes, and no more.
fn holds(blob: &Blob, bytes: &[u8]) -> bool {
    let mut place = [0; 16];
    let count = blob.piece(0, &mut place);
    &place[..count] == bytes
}

/// Whether this is such a Put.
pub fn is_put_of(kept: &Kept, name: &[u8], content: &[u8]) -> bool {
    let Ask::Put { path, sum, .. } = &kept.entry.ask else {
        return false;
    };
    let Some(blob) = &kept.blob else {
        return false;
    };
    kept.entry.at == 100 && path.is(name) && *sum == sum_of(content) && holds(blob, content)
}
