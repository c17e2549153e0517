// Laws of sessions.
ghost use Rattle.drive_session.specs.Table.{AnswersLeadByPhase, HearsAnswers};

use media::TapeDrive;

/// Where an answer comes with what goes with it, the phase of the session before it and the answer alone tell its line and the
/// phase behind it. A law, which does nothing when it runs. This project's own.
pub fn answers_lead_by_phase<D: TapeDrive>()
    ensures { AnswersLeadByPhase D.Medium }
{}

/// A step whose line does not tell of a want of memory heard what the device answered, so that it is the row of the table for that
/// answer. A law, which does nothing when it runs. This project's own.
pub fn steps_hear_answers()
    ensures { HearsAnswers }
{}
