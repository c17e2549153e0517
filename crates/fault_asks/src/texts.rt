// The errors of recalls.
ghost use Rattle.std.specs.Prelude.{ℕ, ◌≡◌, ◌++◌, codes, string_bytes, IfOk, OnOk};
ghost use Rattle.cta_model.specs.Stages as said;
ghost use Rattle.part_model.specs.JobRows.{book_in};
ghost use Rattle.fault_asks.specs.Reading.{error_told};

use cta_model::{Charge, Job};
use cta_site::{NoMemory, Text, ValidSite};
use job_book::JobBook;
use part_moves::add_charge;
use std::alloc::Global;

// Adds what is said of a charge of a job by its place, and what stands between charges, behind a text. After NoMemory some of it is added.
fn add_place(site: &ValidSite, charge: Charge, out: &mut String) -> Result<(), NoMemory>
    ensures { OnOk result (string_bytes out.new ≡ string_bytes out.old ++ (said.charge_text site.now charge ++ codes "; ")) }
{
    add_charge(site, charge, out)?;
    out.push_str("; ")?;
    Ok(())
}

// The error of the live recall of a file, which is charged once more. NoMemory gives nothing.
pub(crate) fn error_of(
    alloc: Global,
    site: &ValidSite,
    book: &JobBook,
    charge: Charge,
    file: u32,
) -> Result<Text, NoMemory>
    ensures { IfOk result (λ text. text ≡ error_told site.now (book_in book.now.value) charge file) }
{
    let mut text = String::new(alloc);
    let Some(birth) = book.live_recall(file) else {
        return Ok(Text::of(text));
    };
    let job = Job {
        birth,
        file,
        copy: 0,
    };
    for place in 0..book.charge_count(job) {
        let Some(charge) = book.charge_at(job, place) else {
            unreachable!();
        };
        add_place(site, charge, &mut text)?;
    }
    add_charge(site, charge, &mut text)?;
    Ok(Text::of(text))
}
