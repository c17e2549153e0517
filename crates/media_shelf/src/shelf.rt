// The shelf.
ghost use Rattle.std.specs.Prelude.{◌≡◌, ◌<◌, Some, None, length, map, option_map, slice_set, IfOk};
ghost use Rattle.blob.specs.Records.{medium_at};

use blob::Told;
use cta_site::NoMemory;
use std::alloc::Global;
use std::marker::Model;

/// A place for the medium of each tape, by the tape's number, empty while a drive has it. Contracts see the medium at each place,
/// with its label, and its records where it tells them. This project's own.
#[derive(Drop)]
pub struct MediaShelf<M: Told> {
    places: Vec<Option<M>>,
}

impl<M: Told> Model for MediaShelf<M> {
    ghost use Rattle.std.specs.Prelude.{List, Option, map, option_map};
    ghost use Rattle.blob.specs.Records.{MediumView};

    ghost Value = { List (Option MediumView) };

    ghost view = { λ s. map (option_map M.told) s.places.items };
}

// What was at a place, which is empty from then on.
fn take_out<M: Told>(places: &mut [Option<M>], at: usize) -> Option<M>
    ensures told { option_map M.told result ≡ medium_at (map (option_map M.told) places.old) at }
    ensures places { map (option_map M.told) places.new ≡ slice_set (map (option_map M.told) places.old) at None }
{
    if at < places.len() {
        return places[at].take();
    }
    None
}

// Puts a medium at a place.
fn put_in<M: Told + Drop>(places: &mut [Option<M>], at: usize, medium: M)
    requires { at < length places.old }
    ensures { map (option_map M.told) places.new ≡ slice_set (map (option_map M.told) places.old) at (Some (M.told medium)) }
{
    places[at] = Some(medium);
}

impl<M: Told> MediaShelf<M> {
    /// A shelf with these media, one for each tape in the order of their numbers. NoMemory drops them. Its cost is their number.
    pub fn new(alloc: Global, media: Vec<M>) -> Result<MediaShelf<M>, NoMemory>
    where
        M: Drop,
        ensures { IfOk result (λ shelf. shelf ≡ map (λ m. Some (M.told m)) media.items) }
    {
        let mut places = Vec::new(alloc);
        for medium in media {
            places.push(Some(medium))?;
        }
        Ok(MediaShelf { places })
    }

    /// How many tapes have a place. In constant time.
    pub fn len(&self) -> usize
        ensures { result ≡ length self.now }
    {
        self.places.len()
    }

    /// Takes the medium of a tape, None exactly where its place is empty or there is no such place. It takes no memory and
    /// constant time.
    pub fn take(&mut self, tape: u32) -> Option<M>
        ensures told { option_map M.told result ≡ medium_at self.old tape }
        ensures places { self.new ≡ slice_set self.old tape None }
    {
        take_out(self.places.as_mut_slice(), tape as usize)
    }

    /// Puts a medium at the place of a tape, which is there; what was there is dropped. It takes no memory and constant time.
    pub fn put(&mut self, tape: u32, medium: M)
    where
        M: Drop,
        requires { tape < length self.old }
        ensures { self.new ≡ slice_set self.old tape (Some (M.told medium)) }
    {
        put_in(self.places.as_mut_slice(), tape as usize, medium);
    }
}
