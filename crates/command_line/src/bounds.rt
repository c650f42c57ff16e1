// Numbers of workers and of items, each within its bounds.
ghost use Rattle.std.specs.Prelude.{◌≡◌, ◌≤◌};
ghost use Rattle.command_line.specs.Limits.{most_workers};
ghost use Rattle.river_plan.specs.Caps.{IsCap};

use std::marker::Model;

/// How many workers run a plan, or how many firings a round has at most: 1 to 64.
#[derive(Clone, Copy)]
pub struct Workers {
    number: u32,
}

impl Model for Workers {
    ghost use Rattle.std.specs.Prelude.{ℕ, ◌≤◌};
    ghost use Rattle.command_line.specs.Limits.{most_workers};

    ghost Value = { ℕ };

    ghost view = { λ w. w.number };

    ghost invariant = { λ w. (1 ≤ w.number) × (w.number ≤ most_workers) };

    ghost inverse = { λ n. record { number = n } };
}

impl Workers {
    /// So many.
    pub fn new(number: u32) -> Workers
        requires some { 1 ≤ number }
        requires at_most { number ≤ most_workers }
        ensures { result ≡ number }
    {
        Workers { number }
    }

    /// How many there are.
    pub fn get(self) -> u32
        ensures number { result ≡ self }
        ensures bounds { (1 ≤ result) × (result ≤ most_workers) }
    {
        self.number
    }
}

/// How many items a queue holds at most: 1 to 65,536.
#[derive(Clone, Copy)]
pub struct Capacity {
    items: u32,
}

impl Model for Capacity {
    ghost use Rattle.std.specs.Prelude.{ℕ};
    ghost use Rattle.river_plan.specs.Caps.{IsCap};

    ghost Value = { ℕ };

    ghost view = { λ c. c.items };

    ghost invariant = { λ c. IsCap c.items };

    ghost inverse = { λ n. record { items = n } };
}

impl Capacity {
    /// So many.
    pub fn new(items: u32) -> Capacity
        requires { IsCap items }
        ensures { result ≡ items }
    {
        Capacity { items }
    }

    /// How many items there may be.
    pub fn get(self) -> u32
        ensures items { result ≡ self }
        ensures bounds { IsCap result }
    {
        self.items
    }
}
