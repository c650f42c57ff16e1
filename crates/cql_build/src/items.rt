// The faults of a query's items, in the order in which they are read.
ghost use Rattle.std.specs.Prelude.{◌≡◌, ◌≤◌, nat_lt, [], List, Some, None, IfOk, IfErr};
ghost use Rattle.river_plan.specs.Names.{count};
ghost use Rattle.cql_model.specs.Laws.{known_names};
ghost use Rattle.cql_model.specs.Judged.{is_rows_fault, items_fault};
ghost use Rattle.cql_model.specs.Scopes.{Named, scope_of};
ghost use Rattle.cql_model.specs.Plan.{widths_of};
ghost use Rattle.cql_build.specs.Judged.{IsWidthWith, IsFaultBehind};
ghost use Rattle.cql_build.specs.Knowing.{Knows};
ghost use Rattle.cql_text.specs.Tree.{window_of, source_of, sources_of};

use crate::Known;
use crate::item::item_name;
use cql_model::Fault;
use cql_text::{Source, Window};
use river_base::{MOST_KEPT, Name};

impl Known {
    /// The first fault of a query's items.
    pub(crate) fn items_fault(&self, sources: &[Source]) -> Option<Fault>
        ensures { (ks : List Named) → Knows self.now ks → result ≡ items_fault ks [] (sources_of sources.now) }
    {
        let mut width = 0;
        for i in 0..sources.len() {
            match self.width_with(&sources[..i], width, &sources[i]) {
                Ok(wider) => {
                    width = wider;
                }
                Err(fault) => {
                    return Some(fault);
                }
            }
        }
        None
    }

    // The width of a product with one item more; or the fault of this item.
    fn width_with(&self, before: &[Source], width: usize, source: &Source) -> Result<usize, Fault>
        requires { width ≤ 16 }
        ensures good { (ks : List Named) → Knows self.now ks → width ≡ widths_of (scope_of ks (sources_of before.now))
            → IfOk result (IsWidthWith ks (sources_of before.now) (source_of source.now)) }
        ensures within { IfOk result (λ wider. wider ≤ 16) }
        ensures bad { (ks : List Named) → Knows self.now ks → width ≡ widths_of (scope_of ks (sources_of before.now))
            → IfErr result (IsFaultBehind ks (sources_of before.now) (source_of source.now)) }
    {
        let Some(fields) = self.fields(source.stream) else {
            return Err(Fault::UnknownStream);
        };
        if before.len() >= 4 || is_rows_fault(source.window) {
            return Err(Fault::Limit);
        }
        if is_named(before, item_name(source)) {
            return Err(Fault::NameTwice);
        }
        if fields.len() > 16 - width {
            return Err(Fault::Limit);
        }
        Ok(width + fields.len())
    }
}

// Whether the window is one of too few or too many rows.
fn is_rows_fault(window: Window) -> bool
    ensures { result ≡ is_rows_fault (window_of window) }
{
    match window {
        Window::Rows(n) => n == 0 || n > MOST_KEPT,
        Window::Now | Window::Range(_, _) | Window::Unbounded => false,
    }
}

// Whether one of the items has this name.
fn is_named(sources: &[Source], name: Name) -> bool
    ensures { (ks : List Named) → result ≡ nat_lt 0 (count name (known_names (scope_of ks (sources_of sources.now)))) }
{
    for source in sources {
        if item_name(source) == name {
            return true;
        }
    }
    false
}
