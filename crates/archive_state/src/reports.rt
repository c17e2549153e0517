// What the state tells of tapes and of queues.
ghost use Rattle.std.specs.Prelude.{None, Some, ◌≡◌, ◌<◌, ◌++◌, if◌then◌else◌, length, nat_le, IfOk, OnOk};
ghost use Rattle.std.specs.List.{range_with_len};
ghost use Rattle.cta_model.specs.Queues.{queue_of, sums_of};
ghost use Rattle.cta_model.specs.Reports.{queue_report, queue_reports, queue_reports_by, tape_report};
ghost use Rattle.archive_state.specs.Keys.{key_count, key_name};

use crate::state::ArchiveState;
use blob::Told;
use cta_model::{Direction, QueueInfo, Sums, TapeInfo};
use cta_site::{NoMemory, Rows, Text, ValidSite};

// How many keys the queues in a direction have: a pool each, or a tape each.
fn key_count(site: &ValidSite, direction: Direction) -> u32
    ensures { result ≡ key_count site.now direction }
{
    site.keeps_rules();
    match direction {
        Direction::Archive => site.pools().len() as u32,
        Direction::Retrieve => site.tapes().len() as u32,
    }
}

// The name of a key of the queues in a direction: that of a pool, or the VID of a tape.
fn key_name(site: &ValidSite, direction: Direction, key: u32) -> &Text
    requires { key < key_count site.now direction }
    ensures { result.now ≡ key_name site.now direction key }
{
    match direction {
        Direction::Archive => &site.pools()[key as usize].name,
        Direction::Retrieve => &site.tapes()[key as usize].vid,
    }
}

// Adds what is told of a queue with these sums, where it is not empty.
fn add_info(
    infos: &mut Vec<QueueInfo>,
    direction: Direction,
    name: &Text,
    sums: Option<Sums>,
) -> Result<(), NoMemory>
    ensures { OnOk result (infos.new.items ≡ infos.old.items ++ queue_report direction name.now sums) }
{
    if let Some(sums) = sums {
        let key = name.copy()?;
        infos.push(QueueInfo {
            direction,
            key,
            files: sums.files,
            bytes: sums.bytes,
            oldest: sums.born,
        })?;
    }
    Ok(())
}

impl<M: Told + Drop> ArchiveState<M> {
    /// What is told of a tape, None exactly where the site has no such tape. NoMemory gives nothing. Its cost is the length of the VID.
    pub fn tape_info(&self, tape: u32) -> Result<Option<TapeInfo>, NoMemory>
        ensures { IfOk result (λ info. info ≡ (if nat_le (length self.now.site.tapes.items) tape then None else Some (tape_report self.now.site self.now.history tape))) }
    {
        let _history = &self.history;
        let Some(known) = self.site.site().tapes().get(tape as usize) else {
            return Ok(None);
        };
        let vid = known.vid.copy()?;
        let row = self.parts.tapes.row(tape);
        Ok(Some(TapeInfo {
            vid,
            state: row.state,
            used: row.used,
            files: self.parts.tapes.live(tape),
            next_fseq: row.next,
        }))
    }

    // The sums of the queue of a key in a direction, None where it is empty.
    fn sums_of(&self, direction: Direction, key: u32) -> Option<Sums>
        requires { key < key_count self.now.site direction }
        ensures { result ≡ sums_of self.now.site self.now.history direction (queue_of self.now.site self.now.history direction key) }
    {
        let _history = &self.history;
        match direction {
            Direction::Archive => self.parts.pools.sums(key),
            Direction::Retrieve => self.parts.recalls.sums(key),
        }
    }

    // Adds what is told of the queues in a direction that are not empty, in the order of their keys.
    fn add_infos(&self, infos: &mut Vec<QueueInfo>, direction: Direction) -> Result<(), NoMemory>
        ensures { OnOk result (infos.new.items ≡ infos.old.items ++ queue_reports_by self.now.site self.now.history direction (key_name self.now.site direction) (range_with_len 0 (key_count self.now.site direction))) }
    {
        let site = self.site();
        for key in 0..key_count(site, direction) {
            let name = key_name(site, direction, key);
            add_info(infos, direction, name, self.sums_of(direction, key))?;
        }
        Ok(())
    }

    /// What is told of the queues that are not empty: archive by pool, and then retrieve by VID. NoMemory gives nothing. Its cost is the
    /// number of pools and tapes, and for each queue that is told the length of its key's name and the logarithm of the number of its jobs.
    pub fn queues(&self) -> Result<Rows<QueueInfo>, NoMemory>
        ensures { IfOk result (λ infos. infos.items ≡ queue_reports self.now.site self.now.history) }
    {
        let mut infos = Vec::new(self.alloc);
        self.add_infos(&mut infos, Direction::Archive)?;
        self.add_infos(&mut infos, Direction::Retrieve)?;
        Ok(Rows::of(infos))
    }
}
