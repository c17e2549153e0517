// The counts of open mounts by VO and direction.
ghost use Rattle.std.specs.Prelude.{◌≡◌, ℕ, ◌+◌, ◌-◌, ◌<◌, ◌^◌, if◌then◌else◌, ◌==◌, ◌&&◌, nat_lt, length, IfOk};
ghost use Rattle.cta_model.specs.declared.asks.Direction.{Direction};
ghost use Rattle.cta_model.specs.Choice.{quota_of};
ghost use Rattle.cta_model.specs.Mounts.{same_direction};
ghost use Rattle.part_model.specs.Counts.{count_in};

use crate::counts::{count_at, lower, raise, zeros};
use cta_model::Direction;
use cta_site::{NoMemory, ValidSite};
use std::alloc::Global;
use std::marker::Model;

/// How many mounts each VO of a site has open in each direction. VOs are named by their numbers in the site. Contracts see
/// the two rows of counts.
#[derive(Drop)]
pub struct VoQuota {
    archive: Vec<u32>,
    retrieve: Vec<u32>,
}

impl Model for VoQuota {
    ghost use Rattle.std.specs.Prelude.{◌≡◌, length};
    ghost use Rattle.part_model.specs.Counts.{Counts};

    ghost Value = { Counts };

    ghost view = { λ q. record { archive = q.archive.items; retrieve = q.retrieve.items } };

    ghost invariant = { λ q. length q.archive.items ≡ length q.retrieve.items };
}

impl VoQuota {
    /// No open mount, for the VOs of a site. NoMemory leaves nothing. Its cost is the number of VOs.
    pub fn new(alloc: Global, site: &ValidSite) -> Result<VoQuota, NoMemory>
        ensures empty { IfOk result (λ quota. (way : Direction) (vo : ℕ) → count_in quota way vo ≡ 0) }
        ensures known { IfOk result (λ quota. length quota.archive ≡ length site.now.vos.items) }
    {
        let count = site.vos().len();
        let archive = zeros(alloc, count)?;
        let retrieve = zeros(alloc, count)?;
        Ok(VoQuota { archive, retrieve })
    }

    /// Whether the VO has fewer open mounts in the direction than the site lets it use drives there; false for a VO that the
    /// site does not have. In constant time.
    pub fn has_room(&self, site: &ValidSite, vo: u32, direction: Direction) -> bool
        ensures { result ≡ nat_lt (count_in self.now direction vo) (quota_of site.now direction vo) }
    {
        let open = self.count(vo, direction);
        let Some(vo) = site.vos().get(vo as usize) else {
            return false;
        };
        match direction {
            Direction::Archive => open < vo.write_drives,
            Direction::Retrieve => open < vo.read_drives,
        }
    }

    /// How many mounts the VO has open in the direction, in constant time.
    pub fn count(&self, vo: u32, direction: Direction) -> u32
        ensures { result ≡ count_in self.now direction vo }
    {
        match direction {
            Direction::Archive => count_at(self.archive.as_slice(), vo),
            Direction::Retrieve => count_at(self.retrieve.as_slice(), vo),
        }
    }

    /// Whether the site that the counts were made for has the VO, in constant time.
    pub fn knows(&self, vo: u32) -> bool
        ensures { result ≡ nat_lt vo (length self.now.archive) }
    {
        (vo as usize) < self.archive.len()
    }

    /// Counts one mount more of a VO of the site, of which fewer than 2^32 - 1 are open. It takes no memory and constant time.
    pub fn open_mount(&mut self, vo: u32, direction: Direction)
        requires known { vo < length self.old.archive }
        requires few { count_in self.old direction vo + 1 < 2 ^ 32 }
        ensures counts { (way : Direction) (v : ℕ) → count_in self.new way v ≡ (if same_direction direction way && vo == v then count_in self.old way v + 1 else count_in self.old way v) }
        ensures known { length self.new.archive ≡ length self.old.archive }
    {
        match direction {
            Direction::Archive => raise(self.archive.as_mut_slice(), vo),
            Direction::Retrieve => raise(self.retrieve.as_mut_slice(), vo),
        }
    }

    /// Counts one mount less of the VO; where there is none, nothing changes. It takes no memory and constant time.
    pub fn end_mount(&mut self, vo: u32, direction: Direction)
        ensures counts { (way : Direction) (v : ℕ) → count_in self.new way v ≡ (if same_direction direction way && vo == v then count_in self.old way v - 1 else count_in self.old way v) }
        ensures known { length self.new.archive ≡ length self.old.archive }
    {
        match direction {
            Direction::Archive => lower(self.archive.as_mut_slice(), vo),
            Direction::Retrieve => lower(self.retrieve.as_mut_slice(), vo),
        }
    }
}
