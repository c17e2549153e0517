// What records say of what was kept.
ghost use Rattle.cta_records.specs.Laws.{IsOneRecord, AreToldApart};

/// Bytes begin with one record at most, but for the room in its lists, and two histories with the same records are the same. Laws (this
/// project's own), which do nothing when they run.
pub fn records_tell_apart()
    ensures one { IsOneRecord }
    ensures apart { AreToldApart }
{}
