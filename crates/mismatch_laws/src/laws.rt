// What no answer of the archive depends on.
ghost use Rattle.mismatch_laws.specs.Laws.{
  AnswersAreAlike,
  FitsAreAlike,
  HistoriesStayAlike,
  LegalHistoriesAreAlike,
  LooksAreAlike,
};

/// Two asks that are the same but for what a mismatch has found are answered the same, on histories that are the same but for that. A
/// law, which does nothing when it runs. This project's own.
pub fn answers_are_alike()
    ensures { AnswersAreAlike }
{}

/// A look is answered the same on histories that are the same but for what mismatches have found: every report of a stage request, a
/// file, a repack, failed copies, a tape and the queues, and what a Fetch is told. A law, which does nothing when it runs. This project's
/// own.
pub fn looks_are_alike()
    ensures { LooksAreAlike }
{}

/// Histories that are the same but for what mismatches have found stay so behind such asks, one or many. A law, which does nothing when
/// it runs. This project's own.
pub fn histories_stay_alike()
    ensures { HistoriesStayAlike }
{}

/// A session may make both of two such asks, or neither. A law, which does nothing when it runs. This project's own.
pub fn fits_are_alike()
    ensures { FitsAreAlike }
{}

/// Of two histories that are the same but for what mismatches have found, both are legal, or neither. A law, which does nothing when it
/// runs. This project's own.
pub fn legal_histories_are_alike()
    ensures { LegalHistoriesAreAlike }
{}
