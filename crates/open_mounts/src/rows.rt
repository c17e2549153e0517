// The rows of open mounts.
ghost use Rattle.std.specs.Prelude.{◌≡◌, ◌==◌, ◌-◌, ◌<◌, ◌≤◌, Some, length, find, slice_set, vec_capacity, vec_len};
ghost use Rattle.std.specs.List.{position, slice_index_or};
ghost use Rattle.std.specs.Option.{option_map};
ghost use Rattle.part_model.specs.declared.mounts.OpenMount.{OpenMount};
ghost use Rattle.part_model.specs.Mounts as said;

use cta_model::Item;
use cta_site::Rows;
use part_model::OpenMount;

// The place of a mount's row.
pub(crate) fn place_of(rows: &[OpenMount], mount: u32) -> Option<usize>
    ensures { result ≡ position (λ (r : OpenMount). r.number == mount) rows.now }
{
    rows.iter().position(|row| row.number == mount)
}

// Takes a mount's row out.
pub(crate) fn take_out(rows: &mut Vec<OpenMount>, mount: u32)
    ensures rows { rows.new.items ≡ said.ended mount rows.old.items }
    ensures room { vec_capacity rows.old - vec_len rows.old ≤ vec_capacity rows.new - vec_len rows.new }
{
    rows.retain(|row| row.number != mount);
}

// Puts the items of a Claim into the row at this place.
pub(crate) fn put_items(rows: &mut Vec<OpenMount>, at: usize, items: Rows<Item>)
    requires { at < length rows.old.items }
    ensures rows { (d : OpenMount) → rows.new.items ≡ slice_set rows.old.items at (record (slice_index_or rows.old.items at d) { last = Some items }) }
    ensures room { vec_capacity rows.old - vec_len rows.old ≤ vec_capacity rows.new - vec_len rows.new }
{
    rows[at].last = Some(items);
}

// The row of a mount.
pub(crate) fn row_of(rows: &[OpenMount], mount: u32) -> Option<&OpenMount>
    ensures { option_map (λ row. row.now) result ≡ said.row_of mount rows.now }
{
    rows.iter().find(|row| row.number == mount)
}

// The first row of a drive.
pub(crate) fn of_drive(rows: &[OpenMount], drive: u32) -> Option<&OpenMount>
    ensures { option_map (λ row. row.now) result ≡ find (λ (r : OpenMount). r.drive == drive) rows.now }
{
    rows.iter().find(|row| row.drive == drive)
}

// The first row of a tape.
pub(crate) fn of_tape(rows: &[OpenMount], tape: u32) -> Option<&OpenMount>
    ensures { option_map (λ row. row.now) result ≡ find (λ (r : OpenMount). r.tape == tape) rows.now }
{
    rows.iter().find(|row| row.tape == tape)
}
