// What the choice depends on.
ghost use Rattle.part_answers.specs.Seen.{ChoiceIsSeen};

/// The choice is told by the parts that a seen has, and by how many bytes of the buffer are free or may be evicted. A law,
/// which does nothing when it runs. This project's own.
pub fn choice_is_seen()
    ensures { ChoiceIsSeen }
{}
