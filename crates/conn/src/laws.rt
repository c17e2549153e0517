// What the definitions of a message and of a cut say.
ghost use Rattle.std.specs.Prelude.{ℕ, []};
ghost use Rattle.conn.specs.Examples.{RefusesBoth, AsksPair};
ghost use Rattle.conn.specs.Stands.{Settled};
ghost use Rattle.conn.specs.Unique.{CutsAreSteps, EndsStay, HasOneCut, HasOneMessage, HasOneOutcome, StepsMakeCuts};

/// Two texts read by the definitions: a head with two lengths, which is refused, and a pair of requests of which the second
/// comes in chunks, with a third begun.
pub fn two_texts()
    ensures refused { RefusesBoth }
    ensures pair { AsksPair }
{}

/// No message is a proper prefix of another, and none is read in two ways (RFC 9112, 6.3).
pub fn one_message()
    ensures { HasOneMessage }
{}

/// The messages of a connection, and the text behind them, are the same in every cut of its bytes.
pub fn one_cut()
    ensures { HasOneCut }
{}

/// The step of a connection on `xs ++ ys` is the step on `xs` and then that on `ys`: bytes that come behind a cut make a cut of
/// all the bytes, each cut of all the bytes is made so, and a refusal or a closing request stays whatever comes behind it. So
/// more bytes never change an earlier message.
pub fn steps_follow()
    ensures made { StepsMakeCuts }
    ensures found { CutsAreSteps }
    ensures ends { EndsStay }
{}

/// A connection's bytes give the same requests, the same 100 Continue and the same refusal in every cut, but for two exceptions
/// in which a cut may still wait where another refuses: inside a target that is malformed, and after a 65th field of a head
/// or a trailer.
pub fn one_outcome()
    ensures { HasOneOutcome }
{}

/// A connection to which nothing came gives nothing: no bytes are an unfinished head.
pub fn no_bytes()
    ensures { (limit : ℕ) → Settled limit [] [] }
{}
