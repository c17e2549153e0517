// What two links were told of each other's files, held against the history. The first link puts the files a and c, in this order, and
// the other one b and d. Each asks about all four.

use crate::archives::bytes_of;
use cta_model::{Ask, Entry};
use std::alloc::Global;

const CREATED: &str = "HTTP/1.1 201 Created\r\nContent-Length: 0\r\n\r\n";

// What one question of a link was told: how many files the link itself had put before, and how many of the other link's were there.
#[derive(Clone, Copy)]
pub(crate) struct Told {
    own: usize,
    others: usize,
}

// The places of the four files, where this many of each link's are on disk.
fn places(alloc: Global, firsts: usize, others: usize) -> Option<Vec<u8>> {
    let files: [(&str, &str, bool); 4] = [
        ("[", "a", firsts > 0),
        (",", "b", others > 0),
        (",", "c", firsts > 1),
        (",", "d", others > 1),
    ];
    let mut body = Vec::new(alloc);
    for (before, letter, there) in files {
        let place = if there {
            "{\"locality\":\"DISK\",\"path\":\"/atlas/"
        } else {
            "{\"error\":\"no such file\",\"path\":\"/atlas/"
        };
        let file = bytes_of(alloc, &[before, place, letter, "\"}"]).ok()?;
        body.extend_from_slice(&file).ok()?;
    }
    body.push(b']').ok()?;
    Some(body)
}

// The reply that tells these places.
fn places_reply(alloc: Global, firsts: usize, others: usize) -> Option<Vec<u8>> {
    let body = places(alloc, firsts, others)?;
    let head = format!(in alloc;
        "HTTP/1.1 200 OK\r\nContent-Type: application/json\r\nContent-Length: {}\r\n\r\n",
        body.len()
    )
    .ok()?;
    let mut reply = bytes_of(alloc, &[head.as_str()]).ok()?;
    reply.extend_from_slice(&body).ok()?;
    Some(reply)
}

// How many of the other link's files are told by the reply at the front of these bytes, and the bytes behind it. None where it is
// no reply to a link that has put this many itself.
fn others_told(alloc: Global, is_first: bool, own: usize, bytes: &[u8]) -> Option<(usize, &[u8])> {
    for others in 0..3usize {
        let reply = if is_first {
            places_reply(alloc, own, others)?
        } else {
            places_reply(alloc, others, own)?
        };
        if let Some(behind) = bytes.strip_prefix(reply.as_slice()) {
            return Some((others, behind));
        }
    }
    None
}

// What each question among a link's messages was told. None where the bytes that were written to the link are not a reply to each
// message, in their order.
pub(crate) fn told_of(
    alloc: Global,
    is_first: bool,
    messages: &[&str],
    written: &[u8],
) -> Option<Vec<Told>> {
    let mut rest = written;
    let mut own = 0usize;
    let mut told = Vec::new(alloc);
    for message in messages {
        if message.starts_with("PUT") {
            rest = rest.strip_prefix(CREATED.as_bytes())?;
            own = own.saturating_add(1);
        } else {
            let (others, behind) = others_told(alloc, is_first, own, rest)?;
            told.push(Told { own, others }).ok()?;
            rest = behind;
        }
    }
    if rest.is_empty() { Some(told) } else { None }
}

// The last letter of each path that was put, in the order of the entries, and 0 for an entry that puts none.
pub(crate) fn letters_of(alloc: Global, entries: &[Entry]) -> Option<Vec<u8>> {
    let mut letters = Vec::new(alloc);
    for entry in entries {
        let letter = match &entry.ask {
            Ask::Put { path, .. } => path.as_bytes().last().copied()?,
            _ => 0,
        };
        letters.push(letter).ok()?;
    }
    Some(letters)
}

// Whether each of the four files was put once, and nothing else was accepted.
pub(crate) fn is_each_once(letters: &[u8]) -> bool {
    letters.len() == 4
        && letters.contains(&b'a')
        && letters.contains(&b'b')
        && letters.contains(&b'c')
        && letters.contains(&b'd')
}

// How many of the other link's files stand before the one that a link puts behind this many of its own.
fn others_before(letters: &[u8], is_first: bool, own: usize) -> usize {
    let mut mine = 0usize;
    let mut others = 0usize;
    for letter in letters {
        if (*letter == b'a' || *letter == b'c') != is_first {
            others = others.saturating_add(1);
        } else if mine == own {
            return others;
        } else {
            mine = mine.saturating_add(1);
        }
    }
    others
}

// Whether each question of a link has a place in the history at which it was told what is there: behind the link's own files of before,
// before its next one, and not before the place of the question before.
pub(crate) fn has_places(letters: &[u8], is_first: bool, told: &[Told]) -> bool {
    let mut before = 0usize;
    for one in told {
        let least = if one.own == 0 {
            0
        } else {
            others_before(letters, is_first, one.own.saturating_sub(1))
        };
        let most = others_before(letters, is_first, one.own);
        if one.others < before || one.others < least || one.others > most {
            return false;
        }
        before = one.others;
    }
    true
}
