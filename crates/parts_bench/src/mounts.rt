// The open mounts and the quotas of VOs.
use crate::report::{Report, tell};
use cta_model::Direction;
use cta_site::ValidSite;
use open_mounts::{OpenMounts, VoQuota};
use part_model::OpenMount;
use std::io;
use std::time::Instant;

const CALLS: [&str; 7] = [
    "open_mounts.find+reserve+open+end",
    "open_mounts.find",
    "open_mounts.of_drive",
    "open_mounts.of_tape",
    "open_mounts.count",
    "open_mounts.is_down",
    "open_mounts.set_down+set_up",
];

const QUOTA_CALLS: [&str; 3] = [
    "open_mounts.has_room",
    "open_mounts.count",
    "open_mounts.open_mount+end_mount",
];

// Opens a mount of a tape on the drive of its number.
fn open(mounts: &mut OpenMounts, number: u32, drive: u32) -> bool {
    if mounts.reserve(1).is_err() || mounts.room() == 0 {
        return false;
    }
    if mounts.find(number).is_some() {
        return false;
    }
    mounts.open(OpenMount {
        number,
        drive,
        direction: Direction::Archive,
        tape: drive,
        key: 1,
        last: None,
    });
    true
}

fn turn(mounts: &mut OpenMounts, drive: u32) -> bool {
    if drive as usize >= mounts.drives() {
        return false;
    }
    mounts.set_down(drive);
    mounts.set_up(drive);
    true
}

fn reads(mounts: &OpenMounts, file: u32, at: usize) -> bool {
    match at {
        1 => mounts.find(file % 2).is_some(),
        2 => mounts.of_drive(file % 2).is_some(),
        3 => mounts.of_tape(file % 2).is_some(),
        4 => mounts.count(Direction::Archive, 1) > 0,
        _ => !mounts.is_down(file % 2),
    }
}

// One call for one file.
fn call(mounts: &mut OpenMounts, file: u32, at: usize) -> bool {
    match at {
        0 => {
            mounts.end(7);
            open(mounts, 7, 1)
        }
        6 => turn(mounts, file % 2),
        _ => reads(mounts, file, at),
    }
}

fn row(mounts: &mut OpenMounts, files: u32, at: usize) -> u32 {
    let mut calls = 0u32;
    for file in 0..files {
        if call(mounts, file, at) {
            calls = calls.wrapping_add(1);
        }
    }
    calls
}

// Two mounts, the first of which stays.
fn two(mounts: &mut OpenMounts) -> bool {
    open(mounts, 0, 0) && open(mounts, 1, 1)
}

fn mount_lines(rt: &HostRuntime, report: Report, mounts: &mut OpenMounts) -> io::Result<()> {
    if !two(mounts) {
        return Ok(());
    }
    for at in 0..7 {
        let start = Instant::now(rt)?;
        let calls = row(mounts, report.files, at);
        tell(rt, report, CALLS[at], start, calls)?;
    }
    Ok(())
}

fn run_mounts(rt: &HostRuntime, report: Report, site: &ValidSite) -> io::Result<()> {
    match OpenMounts::new(rt.alloc(), site) {
        Ok(mut mounts) => mount_lines(rt, report, &mut mounts),
        Err(_) => Ok(()),
    }
}

fn open_and_end(quota: &mut VoQuota) -> bool {
    if !quota.knows(0) {
        return false;
    }
    if quota.count(0, Direction::Archive) > 9 {
        return false;
    }
    quota.open_mount(0, Direction::Archive);
    quota.end_mount(0, Direction::Archive);
    true
}

fn quota_call(quota: &mut VoQuota, site: &ValidSite, at: usize) -> bool {
    match at {
        0 => quota.has_room(site, 0, Direction::Archive),
        1 => quota.count(0, Direction::Archive) == 0,
        _ => open_and_end(quota),
    }
}

fn quota_row(quota: &mut VoQuota, site: &ValidSite, files: u32, at: usize) -> u32 {
    for file in 0..files {
        if !quota_call(quota, site, at) {
            return file;
        }
    }
    files
}

fn quota_lines(
    rt: &HostRuntime,
    report: Report,
    site: &ValidSite,
    quota: &mut VoQuota,
) -> io::Result<()> {
    for at in 0..3 {
        let start = Instant::now(rt)?;
        let calls = quota_row(quota, site, report.files, at);
        tell(rt, report, QUOTA_CALLS[at], start, calls)?;
    }
    Ok(())
}

fn run_quota(rt: &HostRuntime, report: Report, site: &ValidSite) -> io::Result<()> {
    match VoQuota::new(rt.alloc(), site) {
        Ok(mut quota) => quota_lines(rt, report, site, &mut quota),
        Err(_) => Ok(()),
    }
}

// Prints the lines of the open mounts and of the quotas.
pub fn run(rt: &HostRuntime, report: Report, site: &ValidSite) -> io::Result<()> {
    run_mounts(rt, report, site)?;
    run_quota(rt, report, site)
}
