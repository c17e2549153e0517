// What the example's valid site answers by its calls, with ample memory.
use crate::site_tests::EXAMPLE;
use cta_site::{Rows, Text, ValidSite};
use site_json::read_site;
use std::alloc::Global;

// Whether the site's texts are those of the example.
fn has_texts(site: &ValidSite) -> bool {
    site.version() == 1
        && site.sitename().is(b"T1")
        && site.endpoint().is(b"https://tape.example.org/api/v1")
        && site.default_policy().is(b"std")
        && site.repack_policy().is(b"std")
}

// The limits of a site.
fn limits_told(site: &ValidSite) -> [u64; 10] {
    let l = site.limits();
    [
        l.buffer,
        l.file,
        l.archive_bytes,
        l.retrieve_bytes,
        u64::from(l.archive_files),
        u64::from(l.retrieve_files),
        u64::from(l.batch_files),
        u64::from(l.tries),
        u64::from(l.history),
        l.lifetime,
    ]
}

// The lengths of a site's lists, in the order of the file's members.
fn lengths(site: &ValidSite) -> [usize; 11] {
    [
        site.vos().len(),
        site.classes().len(),
        site.pools().len(),
        site.routes().len(),
        site.policies().len(),
        site.rules().len(),
        site.libraries().len(),
        site.tapes().len(),
        site.drives().len(),
        site.directories().len(),
        site.failures().len(),
    ]
}

// What a site finds by name.
fn found(site: &ValidSite) -> [Option<u32>; 6] {
    [
        site.class_of(b"/atlas/a"),
        site.class_of(b"/atlasx/a"),
        site.drive_of(b"d1"),
        site.drive_of(b"d"),
        site.tape_of(b"V1"),
        Some(site.policy_of(b"alice", b"atlas")),
    ]
}

// A site's limits, its lists' lengths, what it finds by name, and whether its texts are those of the example.
type Answers = ([u64; 10], [usize; 11], [Option<u32>; 6], bool);

fn answers(site: &ValidSite) -> Answers {
    let is_told = has_texts(site) && site.copies_of(b"/atlas/a") == 1;
    (limits_told(site), lengths(site), found(site), is_told)
}

// A copy of a text of these characters.
fn copied(alloc: Global, characters: &str) -> Option<Text> {
    let string = String::from_str(alloc, characters).ok()?;
    Text::of(string).copy().ok()
}

// A list of two texts, made with room for both.
fn listed(alloc: Global) -> Option<Rows<Text>> {
    let mut rows = Rows::of(Vec::new(alloc));
    for characters in ["V1", "V2"] {
        let text = copied(alloc, characters)?;
        rows.reserve(1).ok()?;
        rows.push(text);
    }
    Some(rows)
}

// What the example's valid site answers, None where there is no memory for it.
fn example_site(alloc: Global) -> Option<Answers> {
    let site = read_site(alloc, EXAMPLE.as_bytes()).ok()?;
    let valid = site.check(alloc).ok()?;
    let told = answers(&valid);
    drop(valid);
    Some(told)
}

#[test]
fn example_answers(rt: HostRuntime) {
    let wanted = (
        [1000, 1000, 100, 100, 1, 1, 10, 3, 1000, 60],
        [1, 1, 1, 1, 1, 0, 1, 1, 1, 1, 0],
        [Some(0), None, Some(0), None, Some(0), Some(0)],
        true,
    );
    assert_eq!(rt; example_site(rt.alloc()), Some(wanted));
}

#[test]
fn list_of_two(rt: HostRuntime) {
    let two = match listed(rt.alloc()) {
        Some(rows) => rows.len(),
        None => 0,
    };
    assert_eq!(rt; two, 2);
}
