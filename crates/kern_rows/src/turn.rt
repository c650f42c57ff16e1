// Ports that take turns.
ghost use Rattle.std.specs.Prelude.{◌≡◌, ◌+◌, ◌<◌, ◌^◌, length, slice_index_or, nat_lt, if◌then◌else◌, IfOk, OnOk};
ghost use Rattle.river_base.specs.Changes.{IsChanged};
ghost use Rattle.kern_rows.specs.Dealing.{dealt_start, IsPortInTurn, TurnsOn, DealsFlat};
ghost use Rattle.kern_rows.specs.Needs.{HaveShares};
ghost use Rattle.kern_rows.specs.Turns.{shares};

use crate::Deal;
use kern_changes::Owed;
use river_base::{Flat, NoMemory, Numbers, count_of};
use std::alloc::Global;
use std::marker::Model;

/// How many items a port has in its turn, by the weights of the ports.
pub(crate) fn share(weights: &Numbers, port: usize) -> u64
    requires { port < length weights.now }
    ensures { result ≡ slice_index_or (shares weights.now) port 0 }
{
    count_of(weights.as_slice()[port])
}

/// The port in turn and how many items it had, after one more, where `share` is its share.
pub(crate) fn next_turn(share: u64, ports: usize, port: usize, had: u64) -> (usize, u64)
    requires port { port < ports }
    requires had { had < share }
    ensures port { result.0 ≡ (if nat_lt (had + 1) share then port else (if nat_lt (port + 1) ports then port + 1 else 0)) }
    ensures had { result.1 ≡ (if nat_lt (had + 1) share then had + 1 else 0) }
{
    if had + 1 < share {
        (port, had + 1)
    } else if port + 1 < ports {
        (port + 1, 0)
    } else {
        (0, 0)
    }
}

/// The port in turn, and how many items it had.
#[derive(Drop)]
struct PortTurn {
    port: u32,
    had: u64,
}

impl Model for PortTurn {
    ghost use Rattle.kern_rows.specs.Dealing.{PortInTurn};

    ghost Value = { PortInTurn };

    ghost view = { λ s. record { port = s.port; had = s.had } };

    ghost inverse = { λ d. record { port = d.port; had = d.had } };
}

impl PortTurn {
    // The port in turn, which has one item more.
    fn pass(&mut self, weights: &Numbers) -> u32
        requires few { length weights.now < 2 ^ 32 }
        requires weights { HaveShares (shares weights.now) }
        requires turn { IsPortInTurn (shares weights.now) self.old }
        ensures given { result ≡ self.old.port }
        ensures turn { TurnsOn (shares weights.now) self.old self.new }
    {
        let given = self.port;
        let share = share(weights, given as usize);
        let (port, had) = next_turn(share, weights.len(), given as usize, self.had);
        self.port = port as u32;
        self.had = had;
        given
    }
}

/// What a splitter keeps between items: the port in turn, how many items it had, and where it deals
/// a relation what each list owes.
#[derive(Drop)]
pub struct DealState {
    turn: PortTurn,
    owed: Owed,
}

impl Model for DealState {
    ghost use Rattle.kern_rows.specs.Dealing.{Dealt};

    ghost Value = { Dealt };

    ghost view = { λ s. record { turn = s.turn; owed = s.owed } };
}

impl Deal {
    /// The state before the first item: the first port is in turn, and no list owes anything.
    pub fn start(alloc: Global, weights: &Numbers) -> Result<DealState, NoMemory>
        ensures { IfOk result (λ state. state ≡ dealt_start (length weights.now)) }
    {
        Ok(DealState {
            turn: PortTurn { port: 0, had: 0 },
            owed: Owed::start(alloc, weights.len())?,
        })
    }

    /// An item of a queue of rows or of a stream comes: the port that it goes to, which is the one
    /// in turn. After as many items as its weight the next port is in turn, and after the last one
    /// the first. There are fewer than 2^32 ports.
    pub fn step(weights: &Numbers, state: &mut DealState) -> u32
        requires few { length weights.now < 2 ^ 32 }
        requires weights { HaveShares (shares weights.now) }
        requires turn { IsPortInTurn (shares weights.now) state.old.turn }
        ensures given { result ≡ state.old.turn.port }
        ensures turn { TurnsOn (shares weights.now) state.old.turn state.new.turn }
        ensures owed { state.new.owed ≡ state.old.owed }
    {
        state.turn.pass(weights)
    }

    /// A change of a relation comes: the port that it goes to, which is the one in turn, and the
    /// change for that port, relative to the content that was last given there. All lists owe what
    /// came and went, until they are written next. Where there is no memory, nothing is said of the
    /// state.
    pub fn flat(
        alloc: Global,
        weights: &Numbers,
        state: &mut DealState,
        item: Flat,
    ) -> Result<(u32, Flat), NoMemory>
        requires few { length weights.now < 2 ^ 32 }
        requires weights { HaveShares (shares weights.now) }
        requires turn { IsPortInTurn (shares weights.now) state.old.turn }
        requires owed { length state.old.owed ≡ length weights.now }
        requires change { IsChanged item }
        ensures port { IfOk result (λ given. given.0 ≡ state.old.turn.port) }
        ensures turn { OnOk result (TurnsOn (shares weights.now) state.old.turn state.new.turn) }
        ensures change { IfOk result (λ given. DealsFlat state.old.turn.port item state.old.owed state.new.owed given.1) }
    {
        let Flat::Change(change) = item else {
            unreachable!()
        };
        let port = state.turn.pass(weights);
        let given = state.owed.deal(alloc, port as usize, &change)?;
        Ok((port, Flat::Change(given)))
    }
}
