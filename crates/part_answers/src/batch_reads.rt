// The items of a batch that is to be read.
ghost use Rattle.std.specs.Prelude.{◌≡◌, ◌≤◌, true, insert, length, IfOk, OnOk};
ghost use Rattle.cta_site.specs.Lookups.{copies_of};
ghost use Rattle.cta_model.specs.declared.asks.Item.{Item};
ghost use Rattle.cta_model.specs.Batches.{insert_by_fseq};
ghost use Rattle.cta_model.specs.Files.{path_of, sum_of};
ghost use Rattle.cta_model.specs.History.{entry_of};
ghost use Rattle.part_laws.specs.Batches.{read_told};
ghost use Rattle.part_laws.specs.Files.{fseq_told};
ghost use Rattle.kept_history.specs.Puts.{is_put};
ghost use Rattle.part_answers.specs.Taken.{HavePuts};

use crate::batch_sources::source_fseq;
use cta_model::{Item, Job};
use cta_site::{NoMemory, Rows, ValidSite};
use kept_history::KeptHistory;
use std::alloc::Global;
use tape_table::TapeTable;

// The item of a job, whose file has its Put, with the fSeq of the file's source on a tape.
fn item_on(site: &ValidSite, history: &KeptHistory, table: &TapeTable, tape: u32, job: Job) -> Item
    requires { is_put (entry_of history.now.value job.file) ≡ true }
    ensures { result ≡ record { job = job; fseq = fseq_told table.now.value tape job.file (copies_of site.now (path_of history.now.value job.file)); sum = sum_of history.now.value job.file } }
{
    site.numbers_are_known();
    let copies = site.copies_of(history.path_of(job.file));
    Item {
        job,
        fseq: source_fseq(table, job.file, tape, copies),
        sum: history.sum_of(job.file),
    }
}

// The place of the first item that has a higher fSeq, their number where none has.
fn place_for(items: &[Item], fseq: u32) -> usize
    ensures low { result ≤ length items.now }
    ensures place { (i : Item) → i.fseq ≡ fseq → insert_by_fseq i items.now ≡ insert items.now result i }
{
    for at in 0..items.len() {
        let other = items[at];
        if fseq < other.fseq {
            return at;
        }
    }
    items.len()
}

// Puts an item among others, before the first that has a higher fSeq. NoMemory changes nothing.
fn put_item(items: &mut Vec<Item>, item: Item) -> Result<(), NoMemory>
    ensures { OnOk result (items.new.items ≡ insert_by_fseq item items.old.items) }
{
    let at = place_for(items.as_slice(), item.fseq);
    items.insert(at, item)?;
    Ok(())
}

/// The items of jobs that are to be read from a tape, by fSeq, each with the fSeq of its file's source there, 0 where it has none, and
/// with the length and SHA-256 of its file, which has its Put. NoMemory gives nothing. Its cost is the square of the number of jobs. CTA.
pub fn read_batch(
    alloc: Global,
    site: &ValidSite,
    history: &KeptHistory,
    table: &TapeTable,
    tape: u32,
    jobs: &[Job],
) -> Result<Rows<Item>, NoMemory>
    requires { HavePuts history.now.value jobs.now }
    ensures { IfOk result (λ items. items.items ≡ read_told (sum_of history.now.value) (λ f. fseq_told table.now.value tape f (copies_of site.now (path_of history.now.value f))) jobs.now) }
{
    let mut items = Vec::new(alloc);
    let mut at = jobs.len();
    while at > 0 {
        at -= 1;
        let job = jobs[at];
        put_item(&mut items, item_on(site, history, table, tape, job))?;
    }
    Ok(Rows::of(items))
}
