// The bodies of requests.
ghost use Rattle.std.specs.Prelude.{◌≡◌, ◌≢◌, Ok, Err, IfOk, IfErr};
ghost use Rattle.tape_json.specs.Bodies.{stage_of, paths_of, state_of, vid_of};

use blob::Blob;
use cta_model::Wanted;
use cta_site::{NoMemory, Rows, TapeState, Text};
use std::alloc::Global;
use tape_json::{BodyError, read_paths, read_stage, read_state, read_vid};

// The bytes of a body in one piece.
fn bytes_of(alloc: Global, body: &Blob) -> Result<Vec<u8>, BodyError>
    ensures value { IfOk result (λ bytes. bytes.items ≡ body.now) }
    ensures cause { IfErr result (λ e. e ≡ BodyError.NoMemory) }
{
    let mut bytes = Vec::new(alloc);
    match bytes.resize(body.sum().len as usize, 0) {
        Ok(()) => {
            body.piece(0, &mut bytes[..]);
            Ok(bytes)
        }
        Err(_) => Err(BodyError::NoMemory),
    }
}

pub(crate) fn stage_in(alloc: Global, body: &Blob) -> Result<Rows<Wanted>, BodyError>
    ensures value { IfOk result (λ files. stage_of body.now ≡ Ok files.items) }
    ensures cause { IfErr result (λ e. e ≢ BodyError.NoMemory → stage_of body.now ≡ Err e) }
{
    let bytes = bytes_of(alloc, body)?;
    read_stage(alloc, bytes.as_slice())
}

pub(crate) fn paths_in(alloc: Global, body: &Blob) -> Result<Rows<Text>, BodyError>
    ensures value { IfOk result (λ paths. paths_of body.now ≡ Ok paths.items) }
    ensures cause { IfErr result (λ e. e ≢ BodyError.NoMemory → paths_of body.now ≡ Err e) }
{
    let bytes = bytes_of(alloc, body)?;
    read_paths(alloc, bytes.as_slice())
}

pub(crate) fn state_in(alloc: Global, body: &Blob) -> Result<TapeState, BodyError>
    ensures value { IfOk result (λ state. state_of body.now ≡ Ok state) }
    ensures cause { IfErr result (λ e. e ≢ BodyError.NoMemory → state_of body.now ≡ Err e) }
{
    let bytes = bytes_of(alloc, body)?;
    read_state(alloc, bytes.as_slice())
}

pub(crate) fn vid_in(alloc: Global, body: &Blob) -> Result<Text, BodyError>
    ensures value { IfOk result (λ vid. vid_of body.now ≡ Ok vid) }
    ensures cause { IfErr result (λ e. e ≢ BodyError.NoMemory → vid_of body.now ≡ Err e) }
{
    let bytes = bytes_of(alloc, body)?;
    read_vid(alloc, bytes.as_slice())
}
