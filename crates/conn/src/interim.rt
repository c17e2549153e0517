// The text of a 100 Continue.
ghost use Rattle.std.specs.Prelude.{◌≡◌};
ghost use Rattle.conn.specs.Cut.{continue_text};

/// The text of a 100 Continue (RFC 9110, 15.2.1), which has no fields and no body.
pub fn continue_text() -> &'static [u8]
    ensures { result.now ≡ continue_text }
{
    b"HTTP/1.1 100 Continue\r\n\r\n"
}
