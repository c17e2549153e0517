// A counter and its calls.
ghost use Rattle.std.specs.Prelude.{◌≡◌, [], replicate, None};
ghost use Rattle.hall_bench.specs.Counters.{Plays, adds};

use turn_hall::Keeps;

/// A number that calls raise by one, from 0. Its history is one unit for each time that it was raised.
#[derive(Drop)]
pub struct Counter {
    count: u64,
    // what all rounds of work came to
    mixed: u64,
}

/// What is called: to raise the counter by one after as many rounds of work, or to count.
#[derive(Clone, Copy, Drop)]
pub enum Call {
    Raise(u32),
    Count,
}

/// What comes back: the number after the raise, that the counter is at its type's end, or the number.
#[derive(Clone, Copy, Debug, PartialEq, Eq, Drop)]
pub enum Told {
    Raised(u64),
    Full,
    Counted(u64),
}

impl Counter {
    /// A counter at 0.
    pub fn new() -> Counter
        ensures { result.count ≡ 0 }
    {
        Counter { count: 0, mixed: 0 }
    }

    /// The number.
    pub fn count(&self) -> u64
        ensures { result ≡ self.now.count }
    {
        self.count
    }
}

// Rounds of work that end in a number.
fn work(seed: u64, rounds: u32) -> u64 {
    let mut mixed = seed;
    for round in 0..rounds {
        mixed = mixed.rotate_left(7) ^ u64::from(round);
    }
    mixed
}

impl Keeps for Counter {
    type Site = ();

    type Entry = ();

    type Call = Call;

    type Back = Told;

    ghost site = { λ c. tt };

    ghost history = { λ c. replicate c.count tt };

    ghost legal = { λ s h. Unit {0} };

    ghost can_play = { λ s h call. Unit {0} };

    ghost plays = { λ s. Plays };

    ghost adds = { adds };

    ghost topic = { λ e. None };

    ghost asks = { λ call. None };

    ghost fits = { λ s h call. Unit {0} };

    fn play(&mut self, call: Call) -> Told {
        match call {
            Call::Raise(rounds) => {
                if self.count == u64::MAX {
                    return Told::Full;
                }
                self.mixed = work(self.mixed, rounds);
                self.count += 1;
                Told::Raised(self.count)
            }
            Call::Count => Told::Counted(self.count),
        }
    }

    fn keeps_history(&self) {}

    fn keeps_laws() {}
}
