// What windows keep, and their steps on changes.
ghost use Rattle.std.specs.Prelude.{◌≡◌, ◌-ℤ◌, pos, Some, IfOk, OnOk, OnErr};
ghost use Rattle.kern_bags.specs.Contents.{later};
ghost use Rattle.kern_bags.specs.Kept.{AreInTurn, inserted, still_in, now_after, window_start, IsWindowKept};
ghost use Rattle.kern_bags.specs.Following.{LetGo, Windows, WindowFits, WindowSteps, GaveChange};

use crate::Window;
use crate::given::give_change;
use crate::stamped::StampedRows;
use kern_changes::settle;
use river_base::{Batch, Change, Items, NoMemory, Rows};
use std::alloc::Global;
use std::marker::Model;

/// What a window of CQL (Arasu, Babu, Widom, 2006) keeps between batches: the greatest instant so
/// far, and the rows that stand in the window.
#[derive(Drop)]
pub struct WindowState {
    now: Option<i64>,
    rows: StampedRows,
}

impl Model for WindowState {
    ghost use Rattle.kern_bags.specs.Kept.{WindowKept};

    ghost Value = { WindowKept };

    ghost view = { λ s. record { now = s.now; rows = s.rows } };
}

// Now, once a batch of this instant has come.
fn now_after(now: Option<i64>, at: i64) -> i64
    ensures { result ≡ now_after now at }
{
    match now {
        Some(t) if at <= t => t,
        _ => at,
    }
}

// The first instant in a range of this length at `now`.
fn first_in_range(now: i64, span: i64) -> i128
    ensures { result ≡ later (pos 0) (now -ℤ span) }
{
    (i128::from(now) - i128::from(span)).max(0)
}

// The rows that do not stand in the window leave, and come to others.
fn let_go(
    window: &Window,
    now: i64,
    rows: &mut StampedRows,
    gone: &mut Rows,
) -> Result<(), NoMemory>
    requires { AreInTurn rows.old }
    ensures kept { OnOk result (rows.new ≡ still_in window.now now rows.old) }
    ensures gone { OnOk result (LetGo rows.old rows.new gone.old gone.new) }
{
    match window {
        Window::Now => rows.move_before(i128::from(now), gone),
        Window::Range(span) => rows.move_before(first_in_range(now, *span), gone),
        Window::Unbounded => Ok(()),
        Window::Latest(most) => rows.move_all_but(*most as usize, gone),
    }
}

impl WindowState {
    // Rows of an instant come, and those that leave come to an empty list.
    fn renew(
        &mut self,
        window: &Window,
        at: i64,
        rows: &Rows,
        gone: &mut Rows,
    ) -> Result<(), NoMemory>
        requires kept { IsWindowKept window.now self.old }
        ensures now { OnOk result (self.new.now ≡ Some (now_after self.old.now at)) }
        ensures kept { OnOk result (self.new.rows ≡ still_in window.now (now_after self.old.now at) (inserted at rows.now self.old.rows)) }
        ensures gone { OnOk result (LetGo (inserted at rows.now self.old.rows) self.new.rows gone.old gone.new) }
    {
        let now = now_after(self.now, at);
        self.now = Some(now);
        self.rows.insert(at, rows)?;
        let_go(window, now, &mut self.rows, gone)?;
        Ok(())
    }

    // A batch comes: the change of the window's content.
    fn take(&mut self, alloc: Global, window: &Window, batch: Batch) -> Result<Change, NoMemory>
        requires { IsWindowKept window.now self.old }
        ensures contents { IfOk result (λ change. Windows window.now batch self.old self.new change) }
        ensures fits { IfOk result (λ change. WindowFits batch self.old self.new change) }
    {
        let mut gone = Rows::new(alloc);
        self.renew(window, batch.at, &batch.rows, &mut gone)?;
        settle(alloc, batch.at, batch.rows, gone)
    }
}

impl Window {
    /// The state before the first batch: no row.
    pub fn start(&self, alloc: Global) -> Result<WindowState, NoMemory>
        ensures { IfOk result (λ state. state ≡ window_start) }
    {
        Ok(WindowState {
            now: None,
            rows: StampedRows::new(alloc),
        })
    }

    /// A batch comes: its rows come to the window, those that have left it go, and the change of its
    /// content is given, at the batch's instant. Costs n log n of the rows that came and went, and
    /// moves the rows behind the place of a late batch. Where there is no memory, nothing was given,
    /// and nothing is said of the state.
    pub fn step(
        &self,
        alloc: Global,
        state: &mut WindowState,
        batch: Batch,
        out: &mut Items,
    ) -> Result<(), NoMemory>
        requires { IsWindowKept self.now state.old }
        ensures ok { OnOk result (GaveChange (WindowSteps self.now batch state.old state.new) out.old out.new) }
        ensures err { OnErr result (out.new ≡ out.old) }
    {
        let change = state.take(alloc, self, batch)?;
        give_change(change, out)
    }
}
