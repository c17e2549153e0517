// The five lines.
ghost use Rattle.std.specs.Prelude.{◌≡◌, IfOk, false, string_bytes, true};
ghost use Rattle.std.specs.Io.KnownBytes.{Appends};
ghost use Rattle.outside.specs.Causes.{Rose};
ghost use Rattle.mill.specs.Top.{line_of, summary};

use cta_site::NoMemory;
use outside::Sink;
use std::alloc::Global;

// A word and a number on a line.
fn line_of(alloc: Global, word: &str, number: u64) -> Result<String, NoMemory>
    ensures { IfOk result (λ s. string_bytes s ≡ line_of word.now number) }
{
    let line = format!(in alloc; "{word} {number}\n")?;
    Ok(line)
}

// What the lines tell of the run.
#[derive(Clone, Copy)]
pub(crate) struct Figures {
    pub(crate) files: u64,
    pub(crate) bytes: u64,
    pub(crate) archived: u64,
    pub(crate) recalled: u64,
    pub(crate) total: u64,
}

// The five lines.
pub(crate) fn summary_of(alloc: Global, figures: Figures) -> Result<String, NoMemory>
    ensures { IfOk result (λ s. string_bytes s ≡ summary figures.files figures.bytes figures.archived figures.recalled figures.total) }
{
    let files = line_of(alloc, "files", figures.files)?;
    let bytes = line_of(alloc, "bytes", figures.bytes)?;
    let archived = line_of(alloc, "archived", figures.archived)?;
    let recalled = line_of(alloc, "recalled", figures.recalled)?;
    let total = line_of(alloc, "sum", figures.total)?;
    let text = format!(in alloc; "{files}{bytes}{archived}{recalled}{total}")?;
    Ok(text)
}

// Writes a text, and says whether all of it was written.
pub(crate) fn put_text<K: Sink>(out: &mut K, text: &str) -> bool
    ensures written { result ≡ true → Appends (K.written out.old) (K.written out.new) text.now }
    ensures cause { result ≡ false → Rose (K.faults out.old) (K.faults out.new) }
{
    out.write_all_of(text.as_bytes()).is_ok()
}
