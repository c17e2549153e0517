// What accepted asks were answered.
ghost use Rattle.cta_laws.specs.Asks.{AsksAreAnswered};

/// Each entry was answered as its ask is answered on the history before it, ask by ask. This project's own.
pub fn asks_are_answered()
    ensures { AsksAreAnswered }
{}
