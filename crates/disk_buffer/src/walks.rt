// Walks over the rows that are sought.
ghost use Rattle.std.specs.Prelude.{◌≡◌, ◌+◌, ◌<◌, ◌≤◌, ◌^◌, ◌∷◌, [], ◌++◌, true, length};
ghost use Rattle.part_model.specs.Held.{bytes_of, numbers, prefix_of};
ghost use Rattle.sum_trees.specs.Forests.{items_in};
ghost use Rattle.disk_buffer.specs.Stays.{stays_of, residents};
ghost use Rattle.disk_buffer.specs.Walks.{ended_by, lacking_behind, sought};

use crate::row::{Row, Wanted};
use cta_site::Rows;
use sum_trees::Forest;

// How many rows were taken, and how many bytes are lacking still.
#[derive(Clone, Copy)]
struct Taken {
    count: u32,
    lacking: u64,
}

// The bytes of a row that ends up to a moment, and else none.
fn len_by(row: Row, at: u64) -> u64
    ensures { result ≡ bytes_of (ended_by at (row ∷ [])) }
{
    if row.until <= at {
        return row.len;
    }
    0
}

// How many bytes are lacking behind a row, which is taken where it ends up to a moment.
fn lacking_behind(row: Row, at: u64, lacking: u64) -> u64
    ensures { result ≡ lacking_behind at row lacking }
{
    if row.until <= at {
        return lacking.saturating_sub(row.len);
    }
    lacking
}

// Adds the file of a row that ends up to a moment to a list.
fn list_one(row: Row, at: u64, lacking: u64, out: &mut Rows<u32>)
    requires lacking { 0 < lacking }
    requires room { length (prefix_of lacking (ended_by at (row ∷ []))) ≤ out.old.room }
    ensures out { out.new.items ≡ out.old.items ++ numbers (prefix_of lacking (ended_by at (row ∷ []))) }
    ensures room { out.old.room ≤ out.new.room + length (prefix_of lacking (ended_by at (row ∷ []))) }
{
    if row.until <= at {
        out.push(row.file);
    }
}

// Counts a row that ends up to a moment.
fn count_one(row: Row, at: u64, taken: Taken) -> Taken
    requires lacking { 0 < taken.lacking }
    requires fits { taken.count + length (prefix_of taken.lacking (ended_by at (row ∷ []))) < 2 ^ 32 }
    ensures count { result.count ≡ taken.count + length (prefix_of taken.lacking (ended_by at (row ∷ []))) }
    ensures lacking { result.lacking ≡ lacking_behind at row taken.lacking }
{
    if row.until <= at {
        return Taken {
            count: taken.count + 1,
            lacking: taken.lacking.saturating_sub(row.len),
        };
    }
    taken
}

// The bytes of the rows that are sought and end up to the moment.
pub(crate) fn passing_bytes(forest: &Forest<Row>, wanted: Wanted) -> u64
    requires one { length forest.now.trees ≡ 1 }
    requires fits { bytes_of (residents (stays_of (items_in forest.now.trees 0))) < 2 ^ 64 }
    ensures { result ≡ bytes_of (ended_by wanted.at (sought wanted (items_in forest.now.trees 0))) }
{
    let mut total = 0;
    let mut next = forest.first_passing(0, wanted);
    while let Some(row) = next {
        total += len_by(row, wanted.at);
        next = forest.next_passing(0, row, wanted);
    }
    total
}

// How many of the first rows that may go at a moment make so many bytes, or how many may go.
pub(crate) fn count_passing(forest: &Forest<Row>, at: u64, lacking: u64) -> u32
    requires { length forest.now.trees ≡ 1 }
    ensures { result ≡ length (prefix_of lacking (ended_by at (sought (record { at = at; ready = true }) (items_in forest.now.trees 0)))) }
{
    let wanted = Wanted { at, ready: true };
    let mut taken = Taken { count: 0, lacking };
    let _sum = forest.sum(0);
    let mut next = forest.first_passing(0, wanted);
    while taken.lacking > 0 {
        let Some(row) = next else {
            return taken.count;
        };
        taken = count_one(row, at, taken);
        next = forest.next_passing(0, row, wanted);
    }
    taken.count
}

// Adds the files of these rows to a list with room for them.
pub(crate) fn list_passing(forest: &Forest<Row>, at: u64, lacking: u64, out: &mut Rows<u32>)
    requires one { length forest.now.trees ≡ 1 }
    requires room { length (prefix_of lacking (ended_by at (sought (record { at = at; ready = true }) (items_in forest.now.trees 0)))) ≤ out.old.room }
    ensures { out.new.items ≡ out.old.items ++ numbers (prefix_of lacking (ended_by at (sought (record { at = at; ready = true }) (items_in forest.now.trees 0)))) }
{
    let wanted = Wanted { at, ready: true };
    let mut lacking = lacking;
    let mut next = forest.first_passing(0, wanted);
    while lacking > 0 {
        let Some(row) = next else {
            return;
        };
        list_one(row, at, lacking, out);
        lacking = lacking_behind(row, at, lacking);
        next = forest.next_passing(0, row, wanted);
    }
}
