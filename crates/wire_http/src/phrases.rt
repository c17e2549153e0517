// The phrases of status codes.
ghost use Rattle.std.specs.Prelude.{◌≡◌, [], codes};
ghost use Rattle.wire_http.specs.Reply.{phrase};

use http::StatusCode;

// The phrase of a status code, empty where it has none.
pub(crate) fn phrase(code: u16) -> &'static str
    ensures { result.now ≡ phrase code }
{
    match StatusCode::from_u16(code) {
        Ok(status) => status.canonical_reason().unwrap_or(""),
        Err(_) => "",
    }
}

/// The phrase of each status code that the archive sends (RFC 9110, 15; 413 under its older name; 507 is of RFC 4918, 11.5),
/// and the empty one of a code that has none.
pub fn each_code_that_is_sent_has_its_phrase()
    ensures ok { phrase 200 ≡ codes "OK" }
    ensures created { phrase 201 ≡ codes "Created" }
    ensures bad_request { phrase 400 ≡ codes "Bad Request" }
    ensures not_found { phrase 404 ≡ codes "Not Found" }
    ensures method_not_allowed { phrase 405 ≡ codes "Method Not Allowed" }
    ensures conflict { phrase 409 ≡ codes "Conflict" }
    ensures payload_too_large { phrase 413 ≡ codes "Payload Too Large" }
    ensures internal_server_error { phrase 500 ≡ codes "Internal Server Error" }
    ensures not_implemented { phrase 501 ≡ codes "Not Implemented" }
    ensures service_unavailable { phrase 503 ≡ codes "Service Unavailable" }
    ensures insufficient_storage { phrase 507 ≡ codes "Insufficient Storage" }
    ensures without_a_phrase { phrase 999 ≡ [] }
{}
