// Items that wait at ports that take turns.
ghost use Rattle.std.specs.Prelude.{◌≡◌, ◌<◌, length, IfOk, OnOk, MatchOption};
ghost use Rattle.kern_rows.specs.Turns.{turns_start, put as put_in};
ghost use Rattle.kern_rows.specs.Passing.{PassesFront, IsStuck};

use crate::line::ItemLine;
use crate::turn::next_turn;
use river_base::{Item, NoMemory};
use std::alloc::Global;
use std::marker::Model;

/// What a joiner keeps between items: the port in turn, how many items it had, and what waits at
/// each port.
#[derive(Drop)]
pub(crate) struct Joined {
    port: usize,
    had: u64,
    lines: Vec<ItemLine>,
}

impl Model for Joined {
    ghost use Rattle.kern_rows.specs.Turns.{Turns};

    ghost Value = { Turns };

    ghost view = { λ j. record { port = j.port; had = j.had; lists = j.lines.items } };
}

impl Joined {
    /// The first of so many ports is in turn, and nothing waits.
    pub fn start(alloc: Global, ports: usize) -> Result<Joined, NoMemory>
        ensures { IfOk result (λ joined. joined ≡ turns_start ports) }
    {
        let mut lines = Vec::new(alloc);
        for _i in 0..ports {
            lines.push(ItemLine::new(alloc))?;
        }
        Ok(Joined {
            port: 0,
            had: 0,
            lines,
        })
    }

    /// The port in turn.
    pub fn turn(&self) -> usize
        ensures { result ≡ self.now.port }
    {
        self.port
    }

    /// An item comes to a port.
    pub fn put(&mut self, port: usize, item: Item) -> Result<(), NoMemory>
        requires { port < length self.old.lists }
        ensures { OnOk result (self.new ≡ put_in port item self.old) }
    {
        let line = &mut self.lines[port];
        line.push(item)?;
        Ok(())
    }

    /// The front item of the port in turn, whose share this is, passes; None where there is none.
    pub fn pass(&mut self, share: u64) -> Option<Item>
        requires port { self.old.port < length self.old.lists }
        requires had { self.old.had < share }
        ensures { MatchOption result (IsStuck self.old self.new) (λ x. PassesFront share self.old self.new x) }
    {
        let line = &mut self.lines[self.port];
        let Some(item) = line.pop() else {
            return None;
        };
        let (port, had) = next_turn(share, self.lines.len(), self.port, self.had);
        self.port = port;
        self.had = had;
        Some(item)
    }
}
