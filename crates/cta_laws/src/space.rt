// Laws of space.
ghost use Rattle.cta_laws.specs.Space.{BufferHasRoom, TapesHaveRoom};

/// A tape's used bytes are at most its capacity. This project's own.
pub fn tapes_have_room()
    ensures { TapesHaveRoom }
{}

/// The sizes of resident files and of claimed recalls are together at most the site's limit `buffer`. This project's own.
pub fn buffer_has_room()
    ensures { BufferHasRoom }
{}
