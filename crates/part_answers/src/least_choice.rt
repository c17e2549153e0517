// What the definition of the mount choice says.
ghost use Rattle.part_answers.specs.First.{ChoiceIsLeast};

/// What a drive mounts next, by the definition that a Next is answered by, is the least of the candidates: it is one of them, none
/// of them goes before it by the rule, and it goes before each other of them. It is none only where no queue is a candidate. A law,
/// which does nothing when it runs. This project's own.
pub fn choice_is_least()
    ensures { ChoiceIsLeast }
{}
