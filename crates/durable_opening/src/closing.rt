// Mounts that were open when a run ended are closed.
ghost use Rattle.std.specs.Prelude.{◌≡◌, ◌≤◌, ◌<◌, ◌==◌, [], filter, length, not, true};
ghost use Rattle.cta_model.specs.Legal.{IsMountOf, greatest_moment};
ghost use Rattle.cta_model.specs.Media.{IsMediumOf};
ghost use Rattle.cta_model.specs.Mounts.{claimed_items, is_open, mount_of, open_mounts, tape_of_mount};
ghost use Rattle.archive_state.specs.ClaimedJobs.{claimed_jobs};
ghost use Rattle.archive_turns.specs.declared.calls.ArchiveCall.TheVariants as call;
ghost use Rattle.archive_turns.specs.Fits.{CanPlay};
ghost use Rattle.durable_opening.specs.Closing.{AreOpenMounts, IsUntoldOf, Leaves, OnlyCloses, fault_by};

use archive_turns::{ArchiveBack, ArchiveCall};
use cta_journal::Disk;
use cta_model::{Ask, Direction, Fault, Hand, Job, Told};
use cta_site::Rows;
use durable_archive::{Logged, LoggedBack};
use std::alloc::Global;

// The fault by which a mount of this direction gives its jobs back.
fn fault_of(direction: Direction) -> Fault
    ensures { result ≡ fault_by direction }
{
    match direction {
        Direction::Archive => Fault::Flush,
        Direction::Retrieve => Fault::Read,
    }
}

// Makes an ask. True where it was answered; false where memory ran out or the journal is closed.
#[tactic(auto, using(crate::proofs::Asked::still_open))]
fn is_answered<M: Told + Drop, K: Disk>(
    logged: &mut Logged<M, K>,
    at: u64,
    ask: Ask,
    hand: Hand<M>,
) -> bool
    requires { CanPlay M.told logged.old.archive.site logged.old.archive.history (call.Ask at ask hand) }
    ensures site { logged.new.archive.site ≡ logged.old.archive.site }
    ensures left { Leaves logged.old.archive.site logged.old.archive.history at ask logged.new.archive.history result }
    ensures first { logged.new.first ≡ logged.old.first }
    ensures open { result ≡ true → logged.new.closed ≡ logged.old.closed }
{
    match logged.call(ArchiveCall::Ask { at, ask, hand }) {
        LoggedBack::Answered(ArchiveBack::Ask(Ok((answer, out)))) => {
            drop(answer);
            drop(out);
            true
        }
        LoggedBack::Answered(back) => {
            drop(back);
            false
        }
        LoggedBack::Closed { hand, .. } => {
            drop(hand);
            false
        }
    }
}

// Gives jobs back that an open mount claims, which are all of them.
fn return_jobs<M: Told + Drop, K: Disk>(
    alloc: Global,
    logged: &mut Logged<M, K>,
    at: u64,
    mount: u32,
    direction: Direction,
    jobs: Rows<Job>,
) -> bool
    requires within { at ≤ greatest_moment }
    requires open { is_open logged.old.archive.history mount ≡ true }
    requires way { IsMountOf direction (mount_of logged.old.archive.history mount) }
    requires jobs { (jobs.items ≡ claimed_jobs logged.old.archive.site logged.old.archive.history mount) × (0 < length jobs.items) }
    ensures kept { OnlyCloses logged.old.archive logged.new.archive }
    ensures first { logged.new.first ≡ logged.old.first }
    ensures open { result ≡ true → logged.new.closed ≡ logged.old.closed }
    ensures done { result ≡ true → (claimed_items logged.new.archive.history mount ≡ []) × (open_mounts logged.new.archive.history ≡ open_mounts logged.old.archive.history) }
{
    logged.archive().keeps_history();
    let ask = Ask::Failed {
        mount,
        fault: fault_of(direction),
        charged: Rows::of(Vec::new(alloc)),
        returned: jobs,
    };
    is_answered(logged, at, ask, Hand::Nothing)
}

// Gives the jobs back that an open mount claims.
fn give_back<M: Told + Drop, K: Disk>(
    alloc: Global,
    logged: &mut Logged<M, K>,
    at: u64,
    mount: u32,
) -> bool
    requires within { at ≤ greatest_moment }
    requires open { is_open logged.old.archive.history mount ≡ true }
    ensures kept { OnlyCloses logged.old.archive logged.new.archive }
    ensures first { logged.new.first ≡ logged.old.first }
    ensures open { result ≡ true → logged.new.closed ≡ logged.old.closed }
    ensures done { result ≡ true → (claimed_items logged.new.archive.history mount ≡ []) × (open_mounts logged.new.archive.history ≡ open_mounts logged.old.archive.history) }
{
    logged.archive().keeps_history();
    match logged.archive().claimed(mount) {
        Ok(Some((direction, jobs))) => {
            if jobs.len() == 0 {
                return true;
            }
            return_jobs(alloc, logged, at, mount, direction, jobs)
        }
        Ok(None) => unreachable!(),
        Err(_) => false,
    }
}

// Ends a mount that claims nothing.
fn end_mount<M: Told + Drop, K: Disk>(
    logged: &mut Logged<M, K>,
    at: u64,
    mount: u32,
    medium: M,
) -> bool
    requires within { at ≤ greatest_moment }
    requires open { is_open logged.old.archive.history mount ≡ true }
    requires none { claimed_items logged.old.archive.history mount ≡ [] }
    requires medium { IsMediumOf logged.old.archive.history (tape_of_mount logged.old.archive.history mount) (M.told medium) }
    ensures kept { OnlyCloses logged.old.archive logged.new.archive }
    ensures first { logged.new.first ≡ logged.old.first }
    ensures open { result ≡ true → logged.new.closed ≡ logged.old.closed }
    ensures done { result ≡ true → open_mounts logged.new.archive.history ≡ filter (λ k. not (k == mount)) (open_mounts logged.old.archive.history) }
{
    logged.archive().keeps_history();
    let ask = Ask::End { mount, fault: None };
    is_answered(logged, at, ask, Hand::Medium(medium))
}

// Closes an open mount.
fn close_mount<M: Told + Drop, K: Disk>(
    alloc: Global,
    logged: &mut Logged<M, K>,
    at: u64,
    mount: u32,
    medium: M,
) -> bool
    requires within { at ≤ greatest_moment }
    requires open { is_open logged.old.archive.history mount ≡ true }
    requires medium { IsUntoldOf (tape_of_mount logged.old.archive.history mount) (M.told medium) }
    ensures kept { OnlyCloses logged.old.archive logged.new.archive }
    ensures first { logged.new.first ≡ logged.old.first }
    ensures open { result ≡ true → logged.new.closed ≡ logged.old.closed }
    ensures done { result ≡ true → open_mounts logged.new.archive.history ≡ filter (λ k. not (k == mount)) (open_mounts logged.old.archive.history) }
{
    if give_back(alloc, logged, at, mount) {
        end_mount(logged, at, mount, medium)
    } else {
        false
    }
}

/// Closes each mount that is open, in order of their numbers, at this moment, in seconds since 1970: the jobs that it claims are given back,
/// none charged, and it ends with no fault, so that its tape lies on the shelf and its jobs stand in their queues again. True where all are
/// closed; else memory ran out, or the journal is closed, as `Logged::closed` tells, and the media of those that are left are let go. Each
/// entry that it adds is one of these. Its cost is, for each mount, that of `Archive::claimed` and of two calls. This project's own.
pub fn close_mounts<M: Told + Drop, K: Disk>(
    alloc: Global,
    logged: &mut Logged<M, K>,
    at: u64,
    mounts: Vec<(u32, M)>,
) -> bool
    requires within { at ≤ greatest_moment }
    requires mounts { AreOpenMounts M.told logged.old.archive.history mounts.items }
    ensures kept { OnlyCloses logged.old.archive logged.new.archive }
    ensures first { logged.new.first ≡ logged.old.first }
    ensures open { result ≡ true → logged.new.closed ≡ logged.old.closed }
    ensures done { result ≡ true → open_mounts logged.new.archive.history ≡ [] }
{
    for (mount, medium) in mounts {
        if !close_mount(alloc, logged, at, mount, medium) {
            return false;
        }
    }
    true
}
