// The lines of a script.
ghost use Rattle.std.specs.Prelude.{◌≡◌, ◌≢◌, ◌<◌, ℕ, length, MatchOption};
ghost use Rattle.replay.specs.Line.{text, drive_name, http_words, step_words, IsHttp, IsDriveStep, IsLine};
ghost use Rattle.replay.specs.declared.line.ScriptLine.{ScriptLine};

use crate::bytes::{first_part, number_of};
use cta_site::ValidSite;

// What the line of an `http` record says: so many bytes for a link, at a moment, in seconds since 1970.
#[derive(Clone, Copy, Debug, PartialEq, Eq)]
pub(crate) struct HttpLine {
    pub(crate) link: u32,
    pub(crate) moment: u64,
    pub(crate) len: u32,
}

// What a line of a script says.
#[derive(Clone, Copy, Debug, PartialEq, Eq)]
pub(crate) enum ScriptLine {
    Http(HttpLine),
    Step { drive: u32, moment: u64 },
    End,
}

const LAST_LINK: u64 = 1023;

// The last second of the year 9999.
const LAST_MOMENT: u64 = 253_402_300_799;

// The most bytes of a record, 2^31.
const LONGEST: u64 = 2_147_483_648;

// What the words behind `http` say.
fn http_of(words: &[u8]) -> Option<HttpLine>
    ensures { MatchOption result
        ((link moment len : ℕ) → IsHttp link moment len → http_words link moment len ≢ words.now)
        (λ h. IsHttp h.link h.moment h.len × (http_words h.link h.moment h.len ≡ words.now)) }
{
    let Some((link, words)) = first_part(words, b' ') else {
        return None;
    };
    let Some((moment, len)) = first_part(words, b' ') else {
        return None;
    };
    let Some(link) = number_of(link, LAST_LINK) else {
        return None;
    };
    let Some(moment) = number_of(moment, LAST_MOMENT) else {
        return None;
    };
    let Some(len) = number_of(len, LONGEST) else {
        return None;
    };
    Some(HttpLine {
        link: link as u32,
        moment,
        len: len as u32,
    })
}

// The number of the drive of this name.
fn drive_number(site: &ValidSite, name: &[u8]) -> Option<u32>
    ensures { MatchOption result ((drive : ℕ) → drive < length site.now.drives.items → drive_name site.now drive ≢ name.now)
        (λ drive. (drive < length site.now.drives.items) × (drive_name site.now drive ≡ name.now)) }
{
    site.drive_of(name)
}

// What the words behind `step` say.
fn step_of(words: &[u8], site: &ValidSite) -> Option<(u32, u64)>
    ensures { MatchOption result
        ((drive moment : ℕ) → IsDriveStep site.now drive moment → step_words site.now drive moment ≢ words.now)
        (λ s. IsDriveStep site.now s.0 s.1 × (step_words site.now s.0 s.1 ≡ words.now)) }
{
    // A valid name holds no space.
    site.keeps_rules();
    let Some((name, moment)) = first_part(words, b' ') else {
        return None;
    };
    let Some(drive) = drive_number(site, name) else {
        return None;
    };
    let Some(moment) = number_of(moment, LAST_MOMENT) else {
        return None;
    };
    Some((drive, moment))
}

// What a line says, without its LF, for a site.
pub(crate) fn line_of(line: &[u8], site: &ValidSite) -> Option<ScriptLine>
    ensures { MatchOption result ((l : ScriptLine) → IsLine site.now l → text site.now l ≢ line.now)
        (λ l. IsLine site.now l × (text site.now l ≡ line.now)) }
{
    if line == b"end".as_slice() {
        return Some(ScriptLine::End);
    }
    let Some((word, words)) = first_part(line, b' ') else {
        return None;
    };
    if word == b"http".as_slice() {
        let Some(http) = http_of(words) else {
            return None;
        };
        return Some(ScriptLine::Http(http));
    }
    if word == b"step".as_slice() {
        let Some((drive, moment)) = step_of(words, site) else {
            return None;
        };
        return Some(ScriptLine::Step { drive, moment });
    }
    None
}
