// The lock of a folder, over a folder of the test's own.
use file_media::{FolderLock, LockErr};
use std::alloc::Global;
use std::fs;
use std::fs::File;
use std::rt::Files;
use std::test::Fail;

// What a taking of the lock comes to; a lock that is taken is given back at once.
fn tried<R: Files<File = File>>(alloc: Global, rt: &R, folder: &str) -> Result<(), LockErr> {
    match FolderLock::take(alloc, rt, folder) {
        Ok(lock) => {
            drop(lock);
            Ok(())
        }
        Err(error) => Err(error),
    }
}

// The machine holds a lock by an open of the file, so another taking by this process stands for one by another.
#[test]
fn one_holds_the_lock(rt: HostRuntime) -> Result<(), Fail> {
    let alloc = rt.alloc();
    let _ = fs::create_dir(&rt, "records-held");
    let _ = fs::create_dir(&rt, "records-free");
    let first = FolderLock::take(alloc, &rt, "records-held")
        .ok()
        .ok_or("no lock")?;
    let second = tried(alloc, &rt, "records-held");
    let other = tried(alloc, &rt, "records-free");
    drop(first);
    let third = tried(alloc, &rt, "records-held");
    assert_eq!(rt;
        [second, other, third],
        [Err(LockErr::InUse), Ok(()), Ok(())]
    );
    fs::remove_file(&rt, "records-held/cta.lock")?;
    fs::remove_file(&rt, "records-free/cta.lock")?;
    Ok(())
}

// A folder that isn't there, and one whose lock can't be opened for writing, since it is a folder.
#[test]
fn folder_without_a_lock_is_a_fault(rt: HostRuntime) {
    let alloc = rt.alloc();
    let _ = fs::create_dir(&rt, "records-lockless");
    let _ = fs::create_dir(&rt, "records-lockless/cta.lock");
    let told = [
        tried(alloc, &rt, "records-lockless/none"),
        tried(alloc, &rt, "records-lockless"),
    ];
    assert_eq!(rt; told, [Err(LockErr::Fault); 2]);
}
