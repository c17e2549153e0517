// The entries that are appended: Puts of files of zeros.
use blob::{Blob, Sum256};
use cta_model::{Actor, Answer, Ask, Entry, Rows, Text, Who};
use cta_records::Kept;
use std::alloc::Global;
use std::sync::Arc;

fn nobody(alloc: Global) -> Who {
    Who {
        requester: Text::of(String::new(alloc)),
        group: Text::of(String::new(alloc)),
    }
}

fn put_entry(alloc: Global, path: String, sum: Sum256) -> Entry {
    let who = nobody(alloc);
    let path = Text::of(path);
    Entry {
        at: 100,
        actor: Actor::Caller(nobody(alloc)),
        ask: Ask::Put { who, path, sum },
        answer: Answer::Stored {
            evicted: Rows::of(Vec::new(alloc)),
        },
    }
}

fn zeros(alloc: Global, len: u32) -> Option<Blob> {
    let mut bytes = Vec::new(alloc);
    bytes.resize(len as usize, 0).ok()?;
    Blob::of(bytes).ok()
}

// A Put of so many bytes under one path, None where there is no memory for it.
pub(crate) fn put_of(alloc: Global, len: u32) -> Option<Kept> {
    let content = zeros(alloc, len)?;
    let path = String::from_str(alloc, "/atlas/a").ok()?;
    let entry = put_entry(alloc, path, content.sum());
    let blob = Arc::new(alloc, content).ok()?;
    Some(Kept {
        entry,
        blob: Some(blob),
    })
}
