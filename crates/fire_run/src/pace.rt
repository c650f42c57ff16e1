// How many workers make a round, by how those before it went.
ghost use Rattle.std.specs.Prelude.{◌<◌, ◌≤◌};

use fire_tasks::{BEGUN, CROWDED};

/// How many rounds one thread makes, the first time that two workers are in each other's way.
const FIRST: u32 = 4;

/// Who makes a round.
#[derive(Clone, Copy)]
enum Crew {
    /// So many workers, each on its thread.
    Workers(u32),
    /// One thread, and so many rounds with this one, before several workers are tried again.
    Alone(u32),
}

/// Who makes the next round.
#[derive(Clone, Copy)]
pub(crate) struct Pace {
    crew: Crew,
    /// How many rounds one thread makes, the next time that two workers are in each other's way.
    alone: u32,
}

impl Pace {
    /// All workers make the first round.
    pub(crate) fn new(workers: u32) -> Pace {
        Pace {
            crew: Crew::Workers(workers),
            alone: FIRST,
        }
    }

    /// For how many workers the net is split. For one thread these are two where there are so many: so its round ends where what lies
    /// between them is full or empty, and not with the run.
    pub(crate) fn parts(self, workers: u32) -> u32
        requires { 1 ≤ workers }
        ensures some { 1 ≤ result }
        ensures most { result ≤ workers }
    {
        match self.crew {
            Crew::Workers(now) => now.max(1).min(workers),
            Crew::Alone(_) => workers.min(2),
        }
    }

    /// The count with which the round begins. That of one thread looks for nothing that others might bring.
    pub(crate) fn count(self, parts: u32) -> u64 {
        let each = (parts as u64).wrapping_mul(BEGUN + 1);
        match self.crew {
            Crew::Workers(_) => each,
            Crew::Alone(_) => each.wrapping_add(CROWDED),
        }
    }

    /// Who makes the round behind one that ended with this count.
    pub(crate) fn after(self, workers: u32, count: u64) -> Pace {
        match self.crew {
            Crew::Alone(left) => self.after_one(left),
            Crew::Workers(now) => {
                if count >= CROWDED {
                    return self.fewer(now);
                }
                Pace {
                    crew: Crew::Workers(now.saturating_mul(2).min(workers)),
                    alone: FIRST.max(self.alone / 2),
                }
            }
        }
    }

    // Behind a round of one thread: another, or one of two workers.
    fn after_one(self, left: u32) -> Pace {
        let crew = if left > 1 {
            Crew::Alone(left - 1)
        } else {
            Crew::Workers(2)
        };
        Pace {
            crew,
            alone: self.alone,
        }
    }

    // Half as many, rounded up; and in the place of two one thread, for twice as many rounds as the last time.
    fn fewer(self, now: u32) -> Pace {
        if now > 2 {
            return Pace {
                crew: Crew::Workers(now - now / 2),
                alone: self.alone,
            };
        }
        Pace {
            crew: Crew::Alone(self.alone),
            alone: self.alone.saturating_mul(2),
        }
    }
}

/// How many threads a round takes that begins with this count.
pub(crate) fn threads_of(count: u64, parts: u32) -> u32
    requires { 0 < parts }
    ensures { 0 < result }
{
    if count >= CROWDED {
        return 1;
    }
    parts
}
