// What workers give back is put together.
ghost use Rattle.std.specs.Prelude.{◌≡◌, ◌-◌, ◌≤◌, All, IfOk, length, take};
ghost use Rattle.turn_hall.specs.Handles.{IsPassOf};
ghost use Rattle.mill_crew.specs.Contents.{AreFetched, file_sums};
ghost use Rattle.mill_crew.specs.Posts.{HasFetched, IsDone, IsMade, IsUnloaded};

use crate::posts::{Done, Fetched, Made};
use crate::shares::Share;
use blob::Sum256;
use cta_site::NoMemory;
use media::TapeDrive;
use turn_hall::{Hall, Keeps, Pass};

// Adds the sums of a share's files to those of the files before it. It fails where the share does not begin there.
#[tactic(auto, using(crate::proofs::Listing::sums_added))]
fn add_sums(
    seed: u64,
    share: Share,
    part: Vec<Sum256>,
    sums: &mut Vec<Sum256>,
) -> Result<(), NoMemory>
    requires part { part.items ≡ file_sums seed share.from (share.to - share.from) }
    requires sums { sums.old.items ≡ file_sums seed 0 (length sums.old.items) }
    ensures { IfOk result (λ _. sums.new.items ≡ file_sums seed 0 (length sums.new.items)) }
{
    let _seed = seed;
    if share.from as usize != sums.len() {
        return Err(NoMemory);
    }
    sums.extend_from_slice(&part)?;
    Ok(())
}

// Adds a drive that came back.
fn add_drive<D: TapeDrive + Drop>(drive: D, drives: &mut Vec<D>) -> Result<(), NoMemory>
    requires drive { IsUnloaded D.seen drive }
    requires drives { All (IsUnloaded D.seen) drives.old.items }
    ensures { IfOk result (λ _. All (IsUnloaded D.seen) drives.new.items) }
{
    drives.push(drive)?;
    Ok(())
}

// Adds what one worker has made.
fn add_made<D: TapeDrive + Drop>(
    seed: u64,
    made: Made<D>,
    drives: &mut Vec<D>,
    sums: &mut Vec<Sum256>,
) -> Result<(), NoMemory>
    requires made { IsMade D.seen seed made }
    requires drives { All (IsUnloaded D.seen) drives.old.items }
    requires sums { sums.old.items ≡ file_sums seed 0 (length sums.old.items) }
    ensures drives { IfOk result (λ _. All (IsUnloaded D.seen) drives.new.items) }
    ensures sums { IfOk result (λ _. sums.new.items ≡ file_sums seed 0 (length sums.new.items)) }
{
    match made {
        Made::Sums { share, sums: part } => match part {
            Some(part) => add_sums(seed, share, part, sums),
            None => Err(NoMemory),
        },
        Made::Drive(drive) => match drive {
            Some(drive) => add_drive(drive, drives),
            None => Err(NoMemory),
        },
    }
}

// Puts the passes of workers to another one, and adds what they have made. It fails where one failed, or the shares of callers do not follow
// one another.
pub(crate) fn gather<T: Keeps, D: TapeDrive + Drop>(
    hall: &Hall<T>,
    pass: &mut Pass<T>,
    seed: u64,
    done: Vec<Done<Pass<T>, D>>,
    drives: &mut Vec<D>,
    sums: &mut Vec<Sum256>,
) -> Result<(), NoMemory>
    requires here { IsPassOf T.site hall.now pass.old }
    requires done { All (IsDone T.site hall.now D.seen seed) done.items }
    requires drives { All (IsUnloaded D.seen) drives.old.items }
    requires sums { sums.old.items ≡ file_sums seed 0 (length sums.old.items) }
    ensures here { IsPassOf T.site hall.now pass.new }
    ensures drives { IfOk result (λ _. All (IsUnloaded D.seen) drives.new.items) }
    ensures sums { IfOk result (λ _. sums.new.items ≡ file_sums seed 0 (length sums.new.items)) }
{
    for one in done {
        let Done { pass: other, made } = one;
        hall.join(pass, other);
        add_made(seed, made, drives, sums)?;
    }
    Ok(())
}

// Puts the pass of a caller that fetched to another one, and adds its total modulo 2^64 to that of the files before its share. It gives the
// first file behind the share, and the total up to there. It fails where the share does not begin where the others end.
fn add_fetched<T: Keeps>(
    hall: &Hall<T>,
    pass: &mut Pass<T>,
    sums: &[Sum256],
    at: u32,
    total: u64,
    one: Fetched<Pass<T>>,
) -> Result<(u32, u64), NoMemory>
    requires here { IsPassOf T.site hall.now pass.old }
    requires one { HasFetched T.site hall.now sums.now one }
    requires fetched { AreFetched (take at sums.now) total }
    ensures here { IsPassOf T.site hall.now pass.new }
    ensures fetched { IfOk result (λ r. AreFetched (take r.0 sums.now) r.1) }
{
    let _sums = sums;
    let Fetched {
        pass: other,
        share,
        total: part,
    } = one;
    hall.join(pass, other);
    let Some(part) = part else {
        return Err(NoMemory);
    };
    if share.from != at || share.to < at {
        return Err(NoMemory);
    }
    Ok((share.to, total.wrapping_add(part)))
}

// Puts the passes of callers that fetched to another one, and adds their totals up modulo 2^64. It fails where one failed, or their shares do
// not follow one another from the first file to the last.
pub(crate) fn gather_fetched<T: Keeps>(
    hall: &Hall<T>,
    pass: &mut Pass<T>,
    sums: &[Sum256],
    done: Vec<Fetched<Pass<T>>>,
) -> Result<u64, NoMemory>
    requires here { IsPassOf T.site hall.now pass.old }
    requires done { All (HasFetched T.site hall.now sums.now) done.items }
    ensures here { IsPassOf T.site hall.now pass.new }
    ensures fetched { IfOk result (AreFetched sums.now) }
{
    let mut at: u32 = 0;
    let mut total: u64 = 0;
    for one in done {
        let (next, sum) = add_fetched(hall, pass, sums, at, total, one)?;
        at = next;
        total = sum;
    }
    if at as usize == sums.len() {
        Ok(total)
    } else {
        Err(NoMemory)
    }
}
