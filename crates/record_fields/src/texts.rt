// Texts.
ghost use Rattle.std.specs.Prelude.{◌≡◌, ◌++◌, ◌<◌, ◌^◌, IfOk, OnOk, List, ℕ, length};
ghost use Rattle.std.specs.Str.{IsUtf8};
ghost use Rattle.record_fields.specs.Fields.{TookRightly, TookUpTo};
ghost use Rattle.record_fields.specs.Texts.{text, TextFits};

use crate::field::{Field, TakeError};
use cta_values::{NoMemory, Text};
use std::alloc::Global;
use std::str;

// Adds the number of some bytes and the bytes.
fn put_bytes(bytes: &[u8], out: &mut Vec<u8>) -> Result<(), NoMemory>
    ensures fits { OnOk result (length bytes.now < 2 ^ 32) }
    ensures bytes { OnOk result ((rest : List ℕ) → out.new.items ++ rest ≡ out.old.items ++ text bytes.now rest) }
{
    let Ok(count) = u32::try_from(bytes.len()) else {
        return Err(NoMemory);
    };
    count.put_field(out)?;
    out.extend_from_slice(bytes)?;
    Ok(())
}

// The bytes whose number stands in front of them, and what follows.
fn take_bytes(alloc: Global, bytes: &[u8]) -> Result<(&[u8], &[u8]), TakeError>
    ensures right { TookRightly (λ b rest. text b.now rest) (λ b. length b.now < 2 ^ 32) (λ rest. rest.now) bytes.now result }
    ensures again { (b : List ℕ) (rest : List ℕ) → length b < 2 ^ 32 → bytes.now ≡ text b rest → TookUpTo (λ rest. rest.now) rest result }
    ensures same { (b : List ℕ) (rest : List ℕ) → length b < 2 ^ 32 → bytes.now ≡ text b rest → IfOk result (λ r. r.0.now ≡ b) }
{
    let (count, rest) = u32::take_field(alloc, bytes)?;
    let count = count as usize;
    if rest.len() < count {
        return Err(TakeError::Bad);
    }
    Ok(rest.split_at(count))
}

impl Field for Text {
    ghost before = { text };

    ghost fits = { TextFits };

    fn put_field(&self, out: &mut Vec<u8>) -> Result<(), NoMemory> {
        let content = self.as_str();
        put_bytes(content.as_bytes(), out)
    }

    fn take_field(alloc: Global, bytes: &[u8]) -> Result<(Text, &[u8]), TakeError> {
        let (front, rest) = take_bytes(alloc, bytes)?;
        let Ok(content) = str::from_utf8(front) else {
            return Err(TakeError::Bad);
        };
        let string = String::from_str(alloc, content)?;
        Ok((Text::of(string), rest))
    }
}
