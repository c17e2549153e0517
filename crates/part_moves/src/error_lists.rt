// The errors of files that fail for one reason.
ghost use Rattle.std.specs.Prelude.{◌≡◌, IfOk, length};
ghost use Rattle.part_moves.specs.Texts.{AreAll};

use cta_site::{NoMemory, Text};
use std::alloc::Global;

// This text as one of its own. NoMemory gives nothing.
fn text_of(alloc: Global, text: &str) -> Result<Text, NoMemory>
    ensures { IfOk result (λ copy. copy ≡ text.now) }
{
    let text = String::from_str(alloc, text)?;
    Ok(Text::of(text))
}

/// So many times this text, the error of files that fail for one reason. NoMemory gives nothing. Its cost is that number times the length
/// of the text. This project's own.
pub fn errors(alloc: Global, error: &str, count: usize) -> Result<Vec<Text>, NoMemory>
    ensures many { IfOk result (λ texts. length texts.items ≡ count) }
    ensures same { IfOk result (λ texts. AreAll error.now texts.items) }
{
    let mut texts = Vec::new(alloc);
    for _ in 0..count {
        let text = text_of(alloc, error)?;
        texts.push(text)?;
    }
    Ok(texts)
}
