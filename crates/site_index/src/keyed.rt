// The site with its numbers.
ghost use Rattle.std.specs.Prelude.{◌≡◌, ◌<◌, length, IfOk};
ghost use Rattle.cta_site.specs.Lookups.{capacity_of, is_in_reach, pool_of_tape, vo_of_pool};

use crate::numbers::{number_at, pools_of_tapes, vo_number, vos_of_pools};
use cta_site::{NoMemory, ValidSite};
use std::alloc::Global;
use std::marker::Model;

/// A valid site, with the number of each tape's pool and of each pool's virtual organisation (VO) at hand. Contracts see it
/// as the site. This project's own.
#[derive(Drop)]
pub struct SiteIndex {
    site: ValidSite,
    pools: Vec<u32>,
    vos: Vec<u32>,
}

impl Model for SiteIndex {
    ghost use Rattle.cta_site.specs.declared.site.Site.{Site};
    ghost use Rattle.site_index.specs.Numbers.{HasNumbers};

    ghost Value = { Site };

    ghost view = { λ k. k.site };

    ghost invariant = { λ k. HasNumbers k.site k.pools.items k.vos.items };
}

impl SiteIndex {
    /// A site with its numbers. After NoMemory the site is dropped. Its cost is the number of tapes times that of pools, and
    /// the number of pools times that of VOs.
    pub fn new(alloc: Global, site: ValidSite) -> Result<SiteIndex, NoMemory>
        ensures { IfOk result (λ keyed. keyed ≡ site) }
    {
        let pools = pools_of_tapes(alloc, &site)?;
        let vos = vos_of_pools(alloc, &site)?;
        Ok(SiteIndex { site, pools, vos })
    }

    /// The site, in constant time.
    pub fn site(&self) -> &ValidSite
        ensures { result.now ≡ self.now }
    {
        &self.site
    }

    /// The number of the pool of a tape, and where there is no such tape the number of pools. In constant time.
    pub fn pool_of_tape(&self, tape: u32) -> u32
        ensures { result ≡ pool_of_tape self.now tape }
    {
        self.site.keeps_rules();
        match number_at(&self.pools, tape) {
            Some(pool) => pool,
            None => self.site.pools().len() as u32,
        }
    }

    /// The number of the VO of a pool, in constant time; where there is no such pool, the number of VOs.
    pub fn vo_of_pool(&self, pool: u32) -> u32
        ensures { result ≡ vo_of_pool self.now pool }
    {
        match number_at(&self.vos, pool) {
            Some(vo) => vo,
            None => vo_number(&self.site, &[]),
        }
    }

    /// The capacity of a tape in bytes, 0 where there is no such tape. In constant time.
    pub fn capacity(&self, tape: u32) -> u64
        ensures { result ≡ capacity_of self.now tape }
    {
        match self.site.tapes().get(tape as usize) {
            Some(tape) => tape.capacity,
            None => 0,
        }
    }

    /// Whether a drive reaches a tape: both are there and in one library. Its cost is at most the length of the library's
    /// name. CTA.
    pub fn is_in_reach(&self, drive: u32, tape: u32) -> bool
        ensures { result ≡ is_in_reach self.now drive tape }
    {
        match self.site.drives().get(drive as usize) {
            None => false,
            Some(drive) => match self.site.tapes().get(tape as usize) {
                None => false,
                Some(tape) => drive.library.is(tape.library.as_bytes()),
            },
        }
    }
}
