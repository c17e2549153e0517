// The elements of the site.
ghost use Rattle.std.specs.Prelude.{◌≡◌, [], ◌∷◌, IfOk};
ghost use Rattle.load_mill.specs.Sites.{drive_called, mill_limits, mill_site, pool_called, route_to, tape_called};

use cta_site::{
    Class, Directory, Drive, Limits, NoMemory, Policy, Route, Rows, Tape, TapePool, TapeState,
    Text, Vo,
};
use std::alloc::Global;

// The capacity of a tape in bytes, 2^40.
const CAPACITY: u64 = 1099511627776;

// The text of a word.
pub(crate) fn text(alloc: Global, word: &str) -> Result<Text, NoMemory>
    ensures { IfOk result (λ text. text ≡ word.now) }
{
    let mut string = String::new(alloc);
    string.push_str(word)?;
    Ok(Text::of(string))
}

// A list of one.
fn one<T: Drop>(alloc: Global, item: T) -> Result<Rows<T>, NoMemory>
    ensures { IfOk result (λ rows. rows.items ≡ item ∷ []) }
{
    let mut items = Vec::new(alloc);
    items.push(item)?;
    Ok(Rows::of(items))
}

// A list of two.
fn two<T: Drop>(alloc: Global, first: T, second: T) -> Result<Rows<T>, NoMemory>
    ensures { IfOk result (λ rows. rows.items ≡ first ∷ second ∷ []) }
{
    let mut items = Vec::new(alloc);
    items.push(first)?;
    items.push(second)?;
    Ok(Rows::of(items))
}

// The limits.
pub(crate) fn limits() -> Limits
    ensures { result ≡ mill_limits }
{
    Limits {
        buffer: 67108864,
        file: 67108864,
        archive_bytes: 100,
        retrieve_bytes: 100,
        archive_files: 1,
        retrieve_files: 1,
        batch_files: 100,
        tries: 3,
        history: 1000000,
        lifetime: 60,
    }
}

// A pool of this name.
fn pool(alloc: Global, name: &str) -> Result<TapePool, NoMemory>
    ensures { IfOk result (λ pool. pool ≡ pool_called name.now) }
{
    let name = text(alloc, name)?;
    let vo = text(alloc, "atlas")?;
    Ok(TapePool { name, vo })
}

// The route of a copy to the pool of this name.
fn route(alloc: Global, copy: u8, name: &str) -> Result<Route, NoMemory>
    ensures { IfOk result (λ route. route ≡ route_to copy name.now) }
{
    let class = text(alloc, "raw")?;
    let pool = text(alloc, name)?;
    Ok(Route { class, copy, pool })
}

// A tape of the pool of this name.
fn tape(alloc: Global, vid: &str, pool: &str) -> Result<Tape, NoMemory>
    ensures { IfOk result (λ tape. tape ≡ tape_called vid.now pool.now) }
{
    let vid = text(alloc, vid)?;
    let pool = text(alloc, pool)?;
    let library = text(alloc, "L1")?;
    Ok(Tape {
        vid,
        pool,
        library,
        capacity: CAPACITY,
        state: TapeState::Active,
    })
}

// A drive of this name.
fn drive(alloc: Global, name: &str) -> Result<Drive, NoMemory>
    ensures { IfOk result (λ drive. drive ≡ drive_called name.now) }
{
    let name = text(alloc, name)?;
    let library = text(alloc, "L1")?;
    Ok(Drive { name, library })
}

// The virtual organisation, which may use all four drives in each direction.
pub(crate) fn vos(alloc: Global) -> Result<Rows<Vo>, NoMemory>
    ensures { IfOk result (λ rows. rows.items ≡ mill_site.vos.items) }
{
    let name = text(alloc, "atlas")?;
    one(
        alloc,
        Vo {
            name,
            read_drives: 4,
            write_drives: 4,
        },
    )
}

// The storage class.
pub(crate) fn classes(alloc: Global) -> Result<Rows<Class>, NoMemory>
    ensures { IfOk result (λ rows. rows.items ≡ mill_site.classes.items) }
{
    let name = text(alloc, "raw")?;
    let vo = text(alloc, "atlas")?;
    one(
        alloc,
        Class {
            name,
            vo,
            copies: 2,
        },
    )
}

// The pools, one for each copy.
pub(crate) fn pools(alloc: Global) -> Result<Rows<TapePool>, NoMemory>
    ensures { IfOk result (λ rows. rows.items ≡ mill_site.pools.items) }
{
    let first = pool(alloc, "p1")?;
    let second = pool(alloc, "p2")?;
    two(alloc, first, second)
}

// The archive routes.
pub(crate) fn routes(alloc: Global) -> Result<Rows<Route>, NoMemory>
    ensures { IfOk result (λ rows. rows.items ≡ mill_site.routes.items) }
{
    let first = route(alloc, 1, "p1")?;
    let second = route(alloc, 2, "p2")?;
    two(alloc, first, second)
}

// The mount policy.
pub(crate) fn policies(alloc: Global) -> Result<Rows<Policy>, NoMemory>
    ensures { IfOk result (λ rows. rows.items ≡ mill_site.policies.items) }
{
    let name = text(alloc, "std")?;
    one(
        alloc,
        Policy {
            name,
            archive_priority: 1,
            archive_min_age: 10,
            retrieve_priority: 1,
            retrieve_min_age: 10,
        },
    )
}

// The library.
pub(crate) fn libraries(alloc: Global) -> Result<Rows<Text>, NoMemory>
    ensures { IfOk result (λ rows. rows.items ≡ mill_site.libraries.items) }
{
    let name = text(alloc, "L1")?;
    one(alloc, name)
}

// The tapes, in each pool two.
pub(crate) fn tapes(alloc: Global) -> Result<Rows<Tape>, NoMemory>
    ensures { IfOk result (λ rows. rows.items ≡ mill_site.tapes.items) }
{
    let mut items = Vec::new(alloc);
    items.push(tape(alloc, "V1", "p1")?)?;
    items.push(tape(alloc, "V2", "p2")?)?;
    items.push(tape(alloc, "V3", "p1")?)?;
    items.push(tape(alloc, "V4", "p2")?)?;
    Ok(Rows::of(items))
}

// The drives.
pub(crate) fn drives(alloc: Global) -> Result<Rows<Drive>, NoMemory>
    ensures { IfOk result (λ rows. rows.items ≡ mill_site.drives.items) }
{
    let mut items = Vec::new(alloc);
    items.push(drive(alloc, "d1")?)?;
    items.push(drive(alloc, "d2")?)?;
    items.push(drive(alloc, "d3")?)?;
    items.push(drive(alloc, "d4")?)?;
    Ok(Rows::of(items))
}

// The directory that the mill's files are in.
pub(crate) fn directories(alloc: Global) -> Result<Rows<Directory>, NoMemory>
    ensures { IfOk result (λ rows. rows.items ≡ mill_site.directories.items) }
{
    let path = text(alloc, "/mill")?;
    let class = text(alloc, "raw")?;
    one(alloc, Directory { path, class })
}
