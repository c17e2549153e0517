// The links of a trial: what they ask and what they are to be sent, however drives and other links come between.

use std::alloc::{AllocError, Global};
use told_links::{Tally, ToldLink, link_of};

// Files that are put and fetched, each by a link of its own.
const PUTS: [[&str; 2]; 4] = [
    [
        "PUT /data/atlas/a HTTP/1.1\r\nHost: t\r\nContent-Length: 5\r\n\r\nhello",
        "GET /data/atlas/a HTTP/1.1\r\nHost: t\r\n\r\n",
    ],
    [
        "PUT /data/atlas/b HTTP/1.1\r\nHost: t\r\nTransfer-Encoding: chunked\r\n\r\n2\r\nhe\r\n3\r\nllo\r\n0\r\n\r\n",
        "GET /data/atlas/b HTTP/1.1\r\nHost: t\r\n\r\n",
    ],
    [
        "PUT /data/atlas/c HTTP/1.1\r\nHost: t\r\nContent-Length: 5\r\n\r\nhello",
        "GET /data/atlas/c HTTP/1.1\r\nHost: t\r\n\r\n",
    ],
    [
        "PUT /data/atlas/d HTTP/1.1\r\nHost: t\r\nContent-Length: 5\r\n\r\nhello",
        "GET /data/atlas/d HTTP/1.1\r\nHost: t\r\n\r\n",
    ],
];

const PUT_AND_FETCHED: &str =
    "HTTP/1.1 201 Created\r\nContent-Length: 0\r\n\r\nHTTP/1.1 200 OK\r\nContent-Type: application/octet-stream\r\nContent-Length: 5\r\n\r\nhello";

const ASK_X: &str =
    "POST /api/v1/archiveinfo HTTP/1.1\r\nHost: t\r\nContent-Length: 16\r\n\r\n{\"paths\":[\"/x\"]}";

const NO_X: &str =
    "HTTP/1.1 200 OK\r\nContent-Type: application/json\r\nContent-Length: 38\r\n\r\n[{\"error\":\"no such file\",\"path\":\"/x\"}]";

const STAGE_NONE: &str =
    "POST /api/v1/stage HTTP/1.1\r\nHost: t\r\nContent-Length: 12\r\n\r\n{\"files\":[]}";

const EMPTY_LIST: &str =
    "HTTP/1.1 400 Bad Request\r\nContent-Type: application/json\r\nContent-Length: 22\r\n\r\n{\"error\":\"empty list\"}";

// All links of a trial.
pub(crate) fn links_of(alloc: Global, tally: &Tally) -> Result<Vec<ToldLink<'_>>, AllocError> {
    let mut links = Vec::new(alloc);
    for messages in &PUTS {
        links.push(link_of(alloc, messages, PUT_AND_FETCHED, tally)?)?;
    }
    links.push(link_of(alloc, &[ASK_X], NO_X, tally)?)?;
    links.push(link_of(alloc, &[STAGE_NONE], EMPTY_LIST, tally)?)?;
    Ok(links)
}
