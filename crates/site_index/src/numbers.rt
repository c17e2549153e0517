// The numbers of pools and of virtual organisations (VO), by name.
ghost use Rattle.std.specs.Prelude.{◌≡◌, map, slice_get, IfOk};
ghost use Rattle.cta_site.specs.declared.site.Tape.{Tape};
ghost use Rattle.cta_site.specs.declared.site.TapePool.{TapePool};
ghost use Rattle.cta_site.specs.declared.site.Vo.{Vo};
ghost use Rattle.cta_site.specs.Lookups.{place_by, pool_number};
ghost use Rattle.site_index.specs.Numbers.{vo_number};

use cta_site::{NoMemory, TapePool, ValidSite, Vo};
use std::alloc::Global;

// The place of the pool of this name.
fn place_of_pool(pools: &[TapePool], name: &[u8]) -> Option<usize>
    ensures { result ≡ place_by (λ (p : TapePool). p.name) pools.now name.now }
{
    pools.iter().position(|pool| pool.name.is(name))
}

// The place of the VO of this name.
fn place_of_vo(vos: &[Vo], name: &[u8]) -> Option<usize>
    ensures { result ≡ place_by (λ (v : Vo). v.name) vos.now name.now }
{
    vos.iter().position(|vo| vo.name.is(name))
}

// The number of the pool of this name, and where there is none the number of pools.
fn pool_number(site: &ValidSite, name: &[u8]) -> u32
    ensures { result ≡ pool_number site.now name.now }
{
    site.keeps_rules();
    let pools = site.pools();
    place_of_pool(pools, name).unwrap_or(pools.len()) as u32
}

// The number of the VO of this name, and where there is none the number of VOs.
pub(crate) fn vo_number(site: &ValidSite, name: &[u8]) -> u32
    ensures { result ≡ vo_number site.now name.now }
{
    site.keeps_rules();
    let vos = site.vos();
    place_of_vo(vos, name).unwrap_or(vos.len()) as u32
}

// The number at a place, None past the end.
pub(crate) fn number_at(numbers: &[u32], at: u32) -> Option<u32>
    ensures { result ≡ slice_get numbers.now at }
{
    numbers.get(at as usize).copied()
}

// The number of the pool of each tape. NoMemory leaves nothing.
pub(crate) fn pools_of_tapes(alloc: Global, site: &ValidSite) -> Result<Vec<u32>, NoMemory>
    ensures { IfOk result (λ numbers. numbers.items ≡ map (λ (t : Tape). pool_number site.now t.pool) site.now.tapes.items) }
{
    let numbers = site
        .tapes()
        .iter()
        .map(|tape| pool_number(site, tape.pool.as_bytes()))
        .collect(alloc)?;
    Ok(numbers)
}

// The number of the VO of each pool. NoMemory leaves nothing.
pub(crate) fn vos_of_pools(alloc: Global, site: &ValidSite) -> Result<Vec<u32>, NoMemory>
    ensures { IfOk result (λ numbers. numbers.items ≡ map (λ (p : TapePool). vo_number site.now p.vo) site.now.pools.items) }
{
    let numbers = site
        .pools()
        .iter()
        .map(|pool| vo_number(site, pool.vo.as_bytes()))
        .collect(alloc)?;
    Ok(numbers)
}
