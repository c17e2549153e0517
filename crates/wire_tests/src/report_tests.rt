// Reports, with ample memory.
ghost use Rattle.std.specs.Prelude.{IsSome};
ghost use Rattle.tape_json.specs.Reports.{report_of};

use cta_model::{
    Answer, Direction, FailedCopy, FileState, ItemState, Job, Locality, PlaceInfo, QueueInfo,
    Refusal, RepackInfo, RepackItem, StageFileInfo, StageInfo, TapeInfo,
};
use cta_site::{Rows, TapeState, Text, ValidSite};
use site_json::read_site;
use std::alloc::{AllocError, Global};
use tape_json::write_answer;

const SITE: &str =
    r#"{"classes":[{"copies":1,"name":"raw","vo":"atlas"}],"defaultPolicy":"std","directories":[{"class":"raw","path":"/atlas"}],"drives":[{"library":"L1","name":"d1"}],"endpoint":"https://tape.example.org/api/v1","libraries":["L1"],"limits":{"archiveBytes":100,"archiveFiles":1,"batchFiles":10,"buffer":1000,"file":1000,"history":1000,"lifetime":60,"retrieveBytes":100,"retrieveFiles":1,"tries":3},"policies":[{"archiveMinAge":10,"archivePriority":1,"name":"std","retrieveMinAge":10,"retrievePriority":1}],"pools":[{"name":"p1","vo":"atlas"}],"repackPolicy":"std","routes":[{"class":"raw","copy":1,"pool":"p1"}],"sitename":"T1","tapes":[{"capacity":1000,"library":"L1","pool":"p1","state":"ACTIVE","vid":"V1"}],"version":1,"vos":[{"name":"atlas","readDrives":1,"writeDrives":1}]}"#;

fn text(alloc: Global, characters: &str) -> Result<Text, AllocError> {
    Ok(Text::of(String::from_str(alloc, characters)?))
}

// Whether the text of an answer is this one.
fn is_written(alloc: Global, site: &ValidSite, answer: Answer, wanted: &str) -> bool
    requires { IsSome (report_of answer) }
{
    let same = match write_answer(alloc, site, &answer) {
        Ok(text) => text.as_str() == wanted,
        Err(_) => false,
    };
    drop(answer);
    same
}

fn site_of(alloc: Global) -> Option<ValidSite> {
    let site = read_site(alloc, SITE.as_bytes()).ok()?;
    site.check(alloc).ok()
}

const JOB: Job = Job {
    birth: 0,
    file: 3,
    copy: 1,
};

fn staged(alloc: Global, site: &ValidSite) -> bool {
    let wanted = r#"{"requestId":"00000000-0000-8000-8000-000000000007"}"#;
    is_written(alloc, site, Answer::Staged { id: 7 }, wanted)
}

fn refused(alloc: Global, site: &ValidSite) -> bool {
    let wanted = r#"{"error":"path not in request"}"#;
    is_written(alloc, site, Answer::Refused(Refusal::ForeignPath), wanted)
}

fn repacking(alloc: Global, site: &ValidSite) -> Result<bool, AllocError> {
    let items = Rows::of(vec![in alloc; JOB]?);
    let wanted = r#"{"repackId":"00000000-0000-8000-8000-0000ffffffff"}"#;
    let id = 4_294_967_295;
    Ok(is_written(alloc, site, Answer::Repacking { id, items }, wanted))
}

fn retried(alloc: Global, site: &ValidSite) -> Result<bool, AllocError> {
    let jobs = Rows::of(vec![in alloc; JOB, JOB]?);
    Ok(is_written(alloc, site, Answer::Retried { jobs }, r#"{"retried":2}"#))
}

fn waiting(alloc: Global) -> Result<StageFileInfo, AllocError> {
    Ok(StageFileInfo {
        path: text(alloc, "/a\"\\\n\u{1f}é")?,
        state: FileState::Submitted,
        on_disk: false,
        started_at: None,
        finished_at: None,
        error: None,
    })
}

fn ended(alloc: Global) -> Result<StageFileInfo, AllocError> {
    let path = text(alloc, "/b")?;
    let error = text(alloc, "no such file")?;
    Ok(StageFileInfo {
        path,
        state: FileState::Failed,
        on_disk: true,
        started_at: Some(5),
        finished_at: Some(9),
        error: Some(error),
    })
}

fn stage_files(alloc: Global) -> Result<Rows<StageFileInfo>, AllocError> {
    let first = waiting(alloc)?;
    let second = ended(alloc)?;
    Ok(Rows::of(vec![in alloc; first, second]?))
}

fn stage(alloc: Global, site: &ValidSite) -> Result<bool, AllocError> {
    let info = StageInfo {
        id: 1,
        created_at: 4,
        started_at: Some(5),
        completed_at: None,
        files: stage_files(alloc)?,
    };
    let wanted =
        r#"{"createdAt":4,"files":[{"onDisk":false,"path":"/a\"\\\n\u001fé","state":"SUBMITTED"},{"error":"no such file","finishedAt":9,"onDisk":true,"path":"/b","startedAt":5,"state":"FAILED"}],"id":"00000000-0000-8000-8000-000000000001","startedAt":5}"#;
    Ok(is_written(alloc, site, Answer::Stage(info), wanted))
}

fn empty_stage(alloc: Global, site: &ValidSite) -> bool {
    let info = StageInfo {
        id: 0,
        created_at: 0,
        started_at: None,
        completed_at: Some(18_446_744_073_709_551_615),
        files: Rows::of(Vec::new(alloc)),
    };
    let wanted =
        r#"{"completedAt":18446744073709551615,"createdAt":0,"files":[],"id":"00000000-0000-8000-8000-000000000000"}"#;
    is_written(alloc, site, Answer::Stage(info), wanted)
}

fn there(alloc: Global) -> Result<PlaceInfo, AllocError> {
    Ok(PlaceInfo {
        path: text(alloc, "/a")?,
        locality: Some(Locality::DiskAndTape),
        error: None,
    })
}

fn absent(alloc: Global) -> Result<PlaceInfo, AllocError> {
    let path = text(alloc, "/b")?;
    let error = text(alloc, "no such file")?;
    Ok(PlaceInfo {
        path,
        locality: None,
        error: Some(error),
    })
}

fn places(alloc: Global, site: &ValidSite) -> Result<bool, AllocError> {
    let first = there(alloc)?;
    let second = absent(alloc)?;
    let places = Rows::of(vec![in alloc; first, second]?);
    let wanted =
        r#"[{"locality":"DISK_AND_TAPE","path":"/a"},{"error":"no such file","path":"/b"}]"#;
    Ok(is_written(alloc, site, Answer::Places(places), wanted))
}

fn repack_items(alloc: Global) -> Result<Rows<RepackItem>, AllocError> {
    let item = RepackItem {
        path: text(alloc, "/a")?,
        copy: 2,
        state: ItemState::Writing,
    };
    Ok(Rows::of(vec![in alloc; item]?))
}

fn repack(alloc: Global, site: &ValidSite) -> Result<bool, AllocError> {
    let items = repack_items(alloc)?;
    let vid = text(alloc, "V1")?;
    let wanted =
        r#"{"id":"00000000-0000-8000-8000-000000000010","items":[{"copy":2,"path":"/a","state":"WRITING"}],"vid":"V1"}"#;
    let info = RepackInfo { id: 16, vid, items };
    Ok(is_written(alloc, site, Answer::RepackSeen(info), wanted))
}

fn errors(alloc: Global) -> Result<Rows<Text>, AllocError> {
    let first = text(alloc, "write fault on d1 V1")?;
    let second = text(alloc, "flush fault on d1 V1")?;
    Ok(Rows::of(vec![in alloc; first, second]?))
}

fn failed_copies(alloc: Global) -> Result<Rows<FailedCopy>, AllocError> {
    let errors = errors(alloc)?;
    let path = text(alloc, "/a")?;
    let copy = FailedCopy {
        path,
        copy: 1,
        errors,
    };
    Ok(Rows::of(vec![in alloc; copy]?))
}

fn failed(alloc: Global, site: &ValidSite) -> Result<bool, AllocError> {
    let copies = failed_copies(alloc)?;
    let wanted =
        r#"[{"copy":1,"errors":["write fault on d1 V1","flush fault on d1 V1"],"path":"/a"}]"#;
    Ok(is_written(alloc, site, Answer::FailedSeen(copies), wanted))
}

fn tape(alloc: Global, site: &ValidSite) -> Result<bool, AllocError> {
    let info = TapeInfo {
        vid: text(alloc, "V1")?,
        state: TapeState::Repacking,
        used: 12,
        files: 3,
        next_fseq: 5,
    };
    let wanted = r#"{"files":3,"nextFseq":5,"state":"REPACKING","used":12,"vid":"V1"}"#;
    Ok(is_written(alloc, site, Answer::TapeSeen(info), wanted))
}

fn queue(
    alloc: Global,
    direction: Direction,
    key: &str,
    bytes: u64,
) -> Result<QueueInfo, AllocError> {
    Ok(QueueInfo {
        direction,
        key: text(alloc, key)?,
        files: 2,
        bytes,
        oldest: 4,
    })
}

fn queues(alloc: Global, site: &ValidSite) -> Result<bool, AllocError> {
    let first = queue(alloc, Direction::Archive, "p1", 30)?;
    let second = queue(alloc, Direction::Retrieve, "V1", 0)?;
    let queues = Rows::of(vec![in alloc; first, second]?);
    let wanted =
        r#"[{"bytes":30,"direction":"archive","files":2,"key":"p1","oldest":4},{"bytes":0,"direction":"retrieve","files":2,"key":"V1","oldest":4}]"#;
    Ok(is_written(alloc, site, Answer::QueuesSeen(queues), wanted))
}

// Whether the reports of an id, a refusal or a count are written so.
fn small_reports(alloc: Global, site: &ValidSite) -> Result<bool, AllocError> {
    let ids = staged(alloc, site) && repacking(alloc, site)?;
    let others = refused(alloc, site) && retried(alloc, site)?;
    Ok(ids && others)
}

// Whether the reports of files and paths are.
fn reports_of_paths(alloc: Global, site: &ValidSite) -> Result<bool, AllocError> {
    let stages = empty_stage(alloc, site) && stage(alloc, site)?;
    let files = places(alloc, site)? && failed(alloc, site)?;
    Ok(stages && files)
}

// Whether the reports of tapes and queues are.
fn reports_of_tapes(alloc: Global, site: &ValidSite) -> Result<bool, AllocError> {
    Ok(tape(alloc, site)? && repack(alloc, site)? && queues(alloc, site)?)
}

// The same of all reports.
fn all_reports(alloc: Global, site: &ValidSite) -> [Result<bool, AllocError>; 3] {
    [
        small_reports(alloc, site),
        reports_of_paths(alloc, site),
        reports_of_tapes(alloc, site),
    ]
}

// The same, where there is memory for a site.
fn are_written(alloc: Global) -> Option<[Result<bool, AllocError>; 3]> {
    let site = site_of(alloc)?;
    let told = all_reports(alloc, &site);
    drop(site);
    Some(told)
}

// The text of each form of a report.
#[test]
fn reports(rt: HostRuntime) {
    let told = are_written(rt.alloc());
    assert_eq!(rt; told, Some([Ok(true), Ok(true), Ok(true)]));
}
