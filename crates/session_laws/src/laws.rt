// Laws of sessions.
ghost use Rattle.session_laws.specs.Laws.{AnsweredSessionFits, AnswersComeWithHands, AskingSessionStays, AsksAreFit, AsksAreKnown, SessionStays};

use media::TapeDrive;

/// A session without an open ask that fits a history fits each longer legal one whose new entries are not about its mount.
/// This project's own.
pub fn session_stays<D: TapeDrive>()
    ensures { SessionStays D.Medium.told }
{}

/// The same of a session with an open ask. This project's own.
pub fn asking_session_stays<D: TapeDrive>()
    ensures { AskingSessionStays D.Medium.told }
{}

/// What a session that fits asks is what a session may ask, and what goes with it is what the archive expects. This project's
/// own.
pub fn asks_are_fit<D: TapeDrive>()
    ensures { AsksAreFit D.Medium.told }
{}

/// No ask of a session that fits is unknown. This project's own.
pub fn asks_are_known<D: TapeDrive>()
    ensures { AsksAreKnown D.Medium.told }
{}

/// After an answer of the sequential archive the session fits the history with the entry, or the same history where none was
/// added. This project's own.
pub fn answered_session_fits<D: TapeDrive>()
    ensures { AnsweredSessionFits D.Medium.told }
{}

/// What comes back from an ask of a session that fits goes with the answer of the sequential archive, so that the phase of the
/// session tells where the answer leads. This project's own.
pub fn answers_come_with_hands<D: TapeDrive>()
    ensures { AnswersComeWithHands D.Medium.told }
{}
