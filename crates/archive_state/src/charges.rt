// What is told of the charges of a job.
ghost use Rattle.std.specs.Prelude.{◌≡◌, IfOk};
ghost use Rattle.cta_model.specs.Stages as said;
ghost use Rattle.part_laws.specs.Reports.{errors_told};
ghost use Rattle.part_model.specs.JobRows.{birth_in};

use cta_model::{Charge, Job};
use cta_site::{NoMemory, Rows, Text, ValidSite};
use job_book::JobBook;
use part_moves::add_charge;
use std::alloc::Global;

// What is said of a charge. NoMemory gives nothing.
fn charge_text(alloc: Global, site: &ValidSite, charge: Charge) -> Result<Text, NoMemory>
    ensures { IfOk result (λ text. text ≡ said.charge_text site.now charge) }
{
    let mut text = String::new(alloc);
    add_charge(site, charge, &mut text)?;
    Ok(Text::of(text))
}

// The errors of the last job of a copy, its charges in order, none where no job was born for it. NoMemory gives nothing.
pub(crate) fn errors_of(
    alloc: Global,
    site: &ValidSite,
    book: &JobBook,
    file: u32,
    copy: u8,
) -> Result<Rows<Text>, NoMemory>
    ensures { IfOk result (λ errors. errors.items ≡ errors_told site.now book.now.value file copy (birth_in book.now.value.births file copy)) }
{
    let mut errors = Vec::new(alloc);
    let Some(birth) = book.last_birth(file, copy) else {
        return Ok(Rows::of(errors));
    };
    let job = Job { birth, file, copy };
    for place in 0..book.charge_count(job) {
        let Some(charge) = book.charge_at(job, place) else {
            unreachable!();
        };
        let text = charge_text(alloc, site, charge)?;
        errors.push(text)?;
    }
    Ok(Rows::of(errors))
}
