// How a run is told to the one who started it.
ghost use Rattle.std.specs.Prelude.{◌≡◌};
ghost use Rattle.cta_main.specs.Exit.{exit_number};

use archive_opening::Status;
use std::io::Eprint;

// The number that the process ends with.
fn number(status: Status) -> u8
    ensures { result ≡ exit_number status }
{
    match status {
        Status::Ok => 0,
        Status::Usage => 2,
        Status::Site { .. } => 3,
        Status::Script { .. } => 4,
        Status::ReadFault => 5,
        Status::WriteFault => 6,
        Status::NoMemory => 7,
        Status::TooLong => 8,
        Status::ListenFault => 9,
        Status::JournalFault => 12,
        Status::JournalDamaged { .. } => 13,
        Status::JournalDiffers { .. } => 14,
    }
}

// Prints the line of a status on standard error, where it has one. That this may fail is not told.
fn complain<E: Eprint>(errors: &E, status: Status) {
    let _ = match status {
        Status::Ok => Ok(()),
        Status::Usage => eprintln!(errors;
            "cta: usage: cta replay SITE | cta serve SITE ADDR MEDIA WORKERS | cta mill SEED FILES WORKERS"
        ),
        Status::Site { rule, item } => eprintln!(errors; "cta: site rule {rule} at {item}"),
        Status::Script { offset } => eprintln!(errors; "cta: script at {offset}"),
        Status::ReadFault => eprintln!(errors; "cta: read fault"),
        Status::WriteFault => eprintln!(errors; "cta: write fault"),
        Status::NoMemory => eprintln!(errors; "cta: no memory"),
        Status::TooLong => eprintln!(errors; "cta: script too long"),
        Status::ListenFault => eprintln!(errors; "cta: listen fault"),
        Status::JournalFault => eprintln!(errors; "cta: journal fault"),
        Status::JournalDamaged { offset } => eprintln!(errors; "cta: journal damaged at {offset}"),
        Status::JournalDiffers { entry } => eprintln!(errors; "cta: journal differs at {entry}"),
    };
}

// Tells how a run ended, and gives the number that the process ends with.
pub(crate) fn end_with<E: Eprint>(errors: &E, status: Status) -> u8
    ensures { result ≡ exit_number status }
{
    complain(errors, status);
    number(status)
}
