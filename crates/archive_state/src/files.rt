// What the state tells of files and of the buffer.
ghost use Rattle.std.specs.Prelude.{ℕ, List, Some, ◌≡◌, ◌≤◌, ◌+◌, IfOk, length, nat_lt, not, option_map};
ghost use Rattle.blob.specs.Sums.{sum_of};
ghost use Rattle.cta_model.specs.Files.{live_file};
ghost use Rattle.cta_model.specs.History.{moment_of, weight_of};
ghost use Rattle.cta_model.specs.Legal.{greatest_moment};
ghost use Rattle.cta_model.specs.Localities.{locality_of};
ghost use Rattle.cta_model.specs.Reports.{place_info};
ghost use Rattle.cta_model.specs.Space.{evictable_size, evicted_for, free_space};
ghost use Rattle.part_laws.specs.Contents.{content_of};

use crate::state::ArchiveState;
use blob::{Blob, Told};
use cta_model::{Locality, PlaceInfo};
use cta_site::{NoMemory, Rows, Text};
use part_answers::locality;
use std::sync::Arc;

impl<M: Told + Drop> ArchiveState<M> {
    /// The file that a path names, None exactly where it names none. Its cost is the length of the path.
    pub fn live_file(&self, path: &[u8]) -> Option<u32>
        ensures { result ≡ live_file self.now.history path.now }
    {
        self.parts.names.file(path)
    }

    /// Readies the buffer for questions of this moment, in seconds since 1970. It changes nothing that is told and takes no memory. Its
    /// cost is the logarithm of the number of files, for each file that may be evicted at this moment and could not before.
    pub fn reach(&mut self, at: u64)
        ensures { self.new ≡ self.old }
    {
        let mut none = Rows::of(Vec::new(self.alloc));
        let now = self.history.moment_of(at);
        self.parts.buffer.evict(now, 0, &mut none);
    }

    /// Whether so many bytes are free in the buffer or may be evicted at this moment, in seconds since 1970. In constant time where
    /// `reach` was called for the moment.
    pub fn has_space(&self, at: u64, size: u64) -> bool
        requires { at ≤ greatest_moment }
        ensures { result ≡ not (nat_lt (free_space self.now.site self.now.history + evictable_size self.now.site self.now.history (moment_of self.now.history at)) size) }
    {
        let free = self.parts.buffer.free();
        if size <= free {
            return true;
        }
        let now = self.history.moment_of(at);
        size - free <= self.parts.buffer.evictable(now)
    }

    /// How many files are evicted at this moment, in seconds since 1970, for so many bytes. Its cost is the logarithm of the number of
    /// files for each of them, where `reach` was called for the moment.
    pub fn evicted_count(&self, at: u64, size: u64) -> u32
        requires { at ≤ greatest_moment }
        ensures { result ≡ length (evicted_for self.now.site self.now.history (moment_of self.now.history at) size) }
    {
        let now = self.history.moment_of(at);
        self.parts.buffer.evict_count(now, size)
    }

    /// Whether the history would weigh more than its limit with an entry of this weight. In constant time.
    pub fn would_pass(&self, weight: u64) -> bool
        ensures { result ≡ nat_lt self.now.site.limits.history (weight_of self.now.history + weight) }
    {
        let limits = self.site.site().limits();
        self.history.would_pass(limits.history, weight)
    }

    /// The content of a file, None exactly where the file is not in the buffer. In constant time.
    pub fn content(&self, file: u32) -> Option<&Arc<Blob>>
        ensures { option_map (λ b. sum_of b.now.value) result ≡ content_of self.now.history file }
    {
        let _history = &self.history;
        self.parts.buffer.blob(file)
    }

    // Where a file is kept.
    fn locality_of(&self, file: u32) -> Locality
        ensures { (path : List ℕ) → live_file self.now.history path ≡ Some file → result ≡ locality_of self.now.site self.now.history file }
    {
        let site = self.site.site();
        site.keeps_rules();
        let copies = site.copies_of(self.history.path_of(file));
        locality(
            &self.parts.tapes,
            file,
            copies,
            self.parts.buffer.is_held(file),
        )
    }

    /// What is told of a path: the locality of the file that it names, or that it names none. NoMemory gives nothing. Its cost is the
    /// length of the path.
    pub fn place_info(&self, path: &Text) -> Result<PlaceInfo, NoMemory>
        ensures { IfOk result (λ info. info ≡ place_info self.now.site self.now.history path.now (live_file self.now.history path.now)) }
    {
        let kept = path.copy()?;
        match self.live_file(path.as_bytes()) {
            Some(file) => Ok(PlaceInfo {
                path: kept,
                locality: Some(self.locality_of(file)),
                error: None,
            }),
            None => {
                let error = String::from_str(self.alloc, "no such file")?;
                Ok(PlaceInfo {
                    path: kept,
                    locality: None,
                    error: Some(Text::of(error)),
                })
            }
        }
    }
}
