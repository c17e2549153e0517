// What an archive tells of the contents in its buffer and of what its mounts claim.

use crate::crew::Put;
use crate::turn_tests::{Blank, archive_of, two_puts};
use archive::Archive;
use cta_model::{Answer, Ask, Direction, Hand, Job};
use std::alloc::Global;
use std::hash::RandomState;
use std::test::Fail;

const SITE: &str =
    r#"{"classes":[{"copies":1,"name":"raw","vo":"atlas"}],"defaultPolicy":"std","directories":[{"class":"raw","path":"/atlas"}],"drives":[{"library":"L1","name":"d1"}],"endpoint":"https://tape.example.org/api/v1","libraries":["L1"],"limits":{"archiveBytes":100,"archiveFiles":1,"batchFiles":10,"buffer":1000,"file":1000,"history":100,"lifetime":60,"retrieveBytes":100,"retrieveFiles":1,"tries":3},"policies":[{"archiveMinAge":10,"archivePriority":1,"name":"std","retrieveMinAge":10,"retrievePriority":1}],"pools":[{"name":"p1","vo":"atlas"}],"repackPolicy":"std","routes":[{"class":"raw","copy":1,"pool":"p1"}],"sitename":"T1","tapes":[{"capacity":1000,"library":"L1","pool":"p1","state":"ACTIVE","vid":"V1"}],"version":1,"vos":[{"name":"atlas","readDrives":1,"writeDrives":1}]}"#;

// Whether a file is put.
fn puts(archive: &mut Archive<Blank>, put: Put) -> bool {
    let Put { who, path, blob } = put;
    let sum = blob.sum();
    match archive.ask(100, Ask::Put { who, path, sum }, Hand::Blob(blob)) {
        Ok((answer, hand)) => {
            drop(hand);
            matches!(answer, Answer::Stored { .. })
        }
        Err(back) => {
            drop(back);
            false
        }
    }
}

// Whether two files are put, by the entries 1 and 2.
fn puts_two(archive: &mut Archive<Blank>, alloc: Global) -> bool {
    let Some((a, b)) = two_puts(alloc) else {
        return false;
    };
    puts(archive, a) && puts(archive, b)
}

// The number of the mount of the first drive.
fn mounted(archive: &mut Archive<Blank>) -> Option<u32> {
    if archive.site().drives().len() < 1 {
        return None;
    }
    match archive.ask(100, Ask::Next { drive: 0 }, Hand::Nothing) {
        Ok((answer, hand)) => {
            drop(hand);
            match answer {
                Answer::Mounted { mount, .. } => Some(mount),
                _ => None,
            }
        }
        Err(back) => {
            drop(back);
            None
        }
    }
}

// Whether a mount is open and its Claim takes a batch.
fn claims(archive: &mut Archive<Blank>, mount: u32) -> bool {
    if archive.mount(mount).is_none() {
        return false;
    }
    match archive.ask(100, Ask::Claim { mount }, Hand::Nothing) {
        Ok((answer, hand)) => {
            drop(hand);
            matches!(answer, Answer::Batch { .. })
        }
        Err(back) => {
            drop(back);
            false
        }
    }
}

// How many bytes the content of a file has.
fn size_of(archive: &Archive<Blank>, file: u32) -> Option<u64> {
    match archive.content(file) {
        Some(blob) => Some(blob.sum().len),
        None => None,
    }
}

// Whether a mount is told with these jobs, all of which it is to write.
fn writes(archive: &Archive<Blank>, mount: u32, jobs: &[Job]) -> bool {
    match archive.claimed(mount) {
        Ok(Some((direction, claimed))) => {
            direction == Direction::Archive && claimed.as_slice() == jobs
        }
        _ => false,
    }
}

// Whether nothing is told of a mount, and for no want of memory.
fn is_shut(archive: &Archive<Blank>, mount: u32) -> bool {
    matches!(archive.claimed(mount), Ok(None))
}

// The sizes of the contents of the files 1 to 3, where two were put.
fn contents_told(alloc: Global, keys: RandomState) -> Option<[Option<u64>; 3]> {
    let mut archive = archive_of(alloc, keys, SITE)?;
    let put = puts_two(&mut archive, alloc);
    let sizes = [
        size_of(&archive, 1),
        size_of(&archive, 2),
        size_of(&archive, 3),
    ];
    archive.let_go();
    if put { Some(sizes) } else { None }
}

// What is told of the mount of two files' jobs: that it claims nothing before its Claim, that it claims both behind it, and that the
// entry before it is no mount.
fn claims_told(archive: &mut Archive<Blank>, mount: u32) -> [bool; 4] {
    let before = writes(archive, mount, &[]);
    let claimed = claims(archive, mount);
    let jobs = [
        Job {
            birth: 1,
            file: 1,
            copy: 1,
        },
        Job {
            birth: 2,
            file: 2,
            copy: 1,
        },
    ];
    [
        before,
        claimed,
        writes(archive, mount, &jobs),
        is_shut(archive, 2),
    ]
}

// The same, of a new archive.
fn claims_found(alloc: Global, keys: RandomState) -> Option<[bool; 4]> {
    let mut archive = archive_of(alloc, keys, SITE)?;
    let put = puts_two(&mut archive, alloc);
    let mount = mounted(&mut archive);
    let told = match mount {
        Some(mount) => Some(claims_told(&mut archive, mount)),
        None => None,
    };
    archive.let_go();
    if put { told } else { None }
}

#[test]
fn contents_in_the_buffer_are_told(rt: HostRuntime) -> Result<(), Fail> {
    let keys = RandomState::new(&rt)?;
    assert_eq!(rt;
        contents_told(rt.alloc(), keys),
        Some([Some(5), Some(5), None])
    );
    Ok(())
}

#[test]
fn claimed_jobs_are_told(rt: HostRuntime) -> Result<(), Fail> {
    let keys = RandomState::new(&rt)?;
    assert_eq!(rt; claims_found(rt.alloc(), keys), Some([true; 4]));
    Ok(())
}
