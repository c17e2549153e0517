// The target of a request.
ghost use Rattle.std.specs.Prelude.{◌≡◌};
ghost use Rattle.wire_http.specs.Rules.{before_query};

// The target without its query.
pub(crate) fn before_query(target: &[u8]) -> &[u8]
    ensures { result.now ≡ before_query target.now }
{
    match target.iter().position(|b| *b == b'?') {
        Some(at) => &target[..at],
        None => target,
    }
}
