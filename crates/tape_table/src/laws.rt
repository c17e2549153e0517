// Laws.
ghost use Rattle.tape_table.specs.Live.{WalksPassAll};

/// A walk along a tape, from live copy to next live copy, passes all of them and no others, each once and in order of fSeq.
/// This project's own.
pub fn walks_pass_all()
    ensures { WalksPassAll }
{}
