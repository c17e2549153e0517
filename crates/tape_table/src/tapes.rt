// The rows of tapes.
ghost use Rattle.std.specs.Prelude.{◌≡◌, ℕ, ◌<◌, if◌then◌else◌, ◌==◌, length, map, IfOk, slice_get};
ghost use Rattle.part_model.specs.Tapes.{row_or};
ghost use Rattle.tape_table.specs.Rows.{fresh_row};

use cta_site::{NoMemory, Tape, TapeState};
use part_model::TapeRow;
use std::alloc::Global;

// A row for each tape, on which nothing was written. NoMemory leaves nothing.
pub(crate) fn fresh_rows(alloc: Global, tapes: &[Tape]) -> Result<Vec<TapeRow>, NoMemory>
    ensures { IfOk result (λ rows. rows.items ≡ map fresh_row tapes.now) }
{
    let mut rows = Vec::new(alloc);
    for tape in tapes {
        rows.push(TapeRow {
            used: 0,
            next: 1,
            state: tape.state,
        })?;
    }
    Ok(rows)
}

// The row of a tape, that of a broken one where it is not there.
pub(crate) fn row_at(rows: &[TapeRow], tape: u32) -> TapeRow
    ensures { result ≡ row_or (slice_get rows.now tape) }
{
    match rows.get(tape as usize).copied() {
        Some(row) => row,
        None => TapeRow {
            used: 0,
            next: 1,
            state: TapeState::Broken,
        },
    }
}

// Puts the row of a tape.
pub(crate) fn set_row(rows: &mut Vec<TapeRow>, tape: u32, row: TapeRow)
    requires { tape < length rows.old.items }
    ensures rows { (t : ℕ) → row_or (slice_get rows.new.items t) ≡ (if t == tape then row else row_or (slice_get rows.old.items t)) }
    ensures len { length rows.new.items ≡ length rows.old.items }
{
    rows[tape as usize] = row;
}
