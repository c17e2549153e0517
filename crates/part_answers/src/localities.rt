// The locality of a file.
ghost use Rattle.std.specs.Prelude.{◌≡◌, ◌≤◌};
ghost use Rattle.cta_model.specs.Localities.{locality_by};
ghost use Rattle.part_model.specs.Held.{Held, is_held};
ghost use Rattle.part_laws.specs.Files.{locality_told};

use crate::copies::{all_placed, some_disabled, some_readable};
use cta_model::Locality;
use tape_table::TapeTable;

// The locality of a file by four tests: it is taped, has a place that may be read, is resident, has a place on a DISABLED tape.
fn locality_by(taped: bool, readable: bool, resident: bool, disabled: bool) -> Locality
    ensures { result ≡ locality_by taped readable resident disabled }
{
    if taped && readable && resident {
        return Locality::DiskAndTape;
    }
    if taped && readable {
        return Locality::Tape;
    }
    if resident {
        return Locality::Disk;
    }
    if disabled {
        return Locality::Unavailable;
    }
    Locality::Lost
}

/// The locality of a live file of so many copies, which the buffer holds or not: on tape only where each copy has a place
/// and one of them is on a tape that may be read. Its cost is the number of copies, of which a file has at most 4. WLCG Tape
/// REST API v1; which conditions give which locality is this project's own.
pub fn locality(table: &TapeTable, file: u32, copies: u8, resident: bool) -> Locality
    requires { copies ≤ 4 }
    ensures { (buffer : Held) → is_held buffer file ≡ resident → result ≡ locality_told table.now.value buffer file copies }
{
    let taped = all_placed(table, file, copies);
    let readable = some_readable(table, file, copies);
    let disabled = some_disabled(table, file, copies);
    locality_by(taped, readable, resident, disabled)
}
