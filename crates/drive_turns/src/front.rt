// How a session's asks become calls of what a hall keeps, and what the session hears of what came back.
ghost use Rattle.std.specs.Prelude.{◌≡◌, ◌≤◌, ℕ, IsSome, List, Option, Some};
ghost use Rattle.cta_site.specs.declared.site.Site.{Site};
ghost use Rattle.cta_model.specs.declared.asks.Ask.{Ask};
ghost use Rattle.cta_model.specs.declared.hands.Hand.{Hand};
ghost use Rattle.cta_model.specs.History.{History};
ghost use Rattle.cta_model.specs.Legal.{greatest_moment};
ghost use Rattle.drive_turns.specs.Fronts.{AsksAreAnswered, AsksNameTheirMounts, FitAsksMayBeCalled, HistoriesAreLegal, MountsAreOwn, TopicsAreMounts};
ghost use Rattle.drive_turns.specs.declared.front.Came.{Came};

use cta_model::{Answer, Ask, Hand, NoMemory, Told};
use turn_hall::Keeps;

/// What came back from the ask of a session.
#[derive(Drop)]
pub enum Came<M, S> {
    /// An answer with what is handed out; or want of memory, which gives the ask back with what went with it.
    Back(Result<(Answer, Hand<M>), (NoMemory, Ask, Hand<M>)>),
    /// No answer: nothing more is asked, for this cause.
    Stop(S),
}

/// The asks of sessions, as calls of a value that a hall keeps. It has an archive's history, which such calls make longer as an archive
/// does.
pub trait DriveFront<T: Keeps, M: Told> {
    /// Why nothing more is asked.
    type Cause;

    // The site of what is kept, as an archive has it.
    ghost site: { T.Site → Site };

    // The history that these entries make, which begin with the oldest.
    ghost history: { List T.Entry → History };

    // The call that asks this at a moment, with what goes with it.
    ghost asking: { ℕ → Ask → Hand M → T.Call };

    // What a session hears of what came back, where it came back from an ask.
    ghost hears: { T.Back → Option (Came M Self.Cause) };

    /// The call that asks this, with what goes with it, at this moment, in seconds since 1970, at most the last second of the year 9999.
    /// It takes no memory.
    fn call_of(&self, at: u64, asked: (Ask, Hand<M>)) -> T::Call
        requires { at ≤ greatest_moment }
        ensures { result ≡ asking at asked.0 asked.1 };

    /// What a session hears of what came back from an ask. It takes no memory.
    fn hear(&self, back: T::Back) -> Came<M, Self::Cause>
        requires { IsSome (hears back) }
        ensures { hears back ≡ Some result };

    /// Lets a cause go. A bound on the type would do for one thread, and what rests on such a bound can't go to another.
    fn let_go(cause: Self::Cause);

    /// The laws of the members: an ask that is fit makes a fit call, which asks about the mount of the ask; what is legal is legal as an
    /// archive's history; entries that are not about a mount are others there; an ask is answered as an archive answers it; and a mount
    /// that came of a pass's own call is the pass's own. It does nothing when it runs.
    fn front_laws()
        ensures fit { FitAsksMayBeCalled M.told site history asking T.fits }
        ensures about { AsksNameTheirMounts asking T.asks }
        ensures legal { HistoriesAreLegal site history T.legal }
        ensures apart { TopicsAreMounts history T.topic }
        ensures answered { AsksAreAnswered M.told site history asking hears T.plays }
        ensures own { MountsAreOwn asking hears T.legal T.plays T.topic T.adds };
}
