// What is handed in with an ask, and out with an answer.
use blob::Blob;
use cta_site::Rows;
use std::alloc::Global;
use std::sync::Arc;

/// What goes with an ask or its answer: nothing, the content of a file, the contents of a batch in the order of its items,
/// or a medium. This project's own.
#[derive(Drop)]
pub enum Hand<M> {
    Nothing,
    Blob(Arc<Blob, Global>),
    Blobs(Rows<Arc<Blob, Global>>),
    Medium(M),
}
