// The items of a query.
ghost use Rattle.std.specs.Prelude.{◌≡◌, List, IfOk};
ghost use Rattle.cql_model.specs.Scopes.{Named, alias_or, item_named, scope_of};
ghost use Rattle.cql_build.specs.Knowing.{Knows};
ghost use Rattle.cql_text.specs.Tree.{source_of, sources_of};
ghost use Rattle.cql_build.specs.Views.{named_item, scope};

use crate::Known;
use cql_text::Source;
use river_base::{Name, NoMemory};
use std::alloc::Global;

/// An item of a query: its name, and the fields of its stream.
#[derive(Clone, Copy)]
pub(crate) struct Item<'a> {
    pub name: Name,
    pub fields: &'a [Name],
}

/// The name of an item: its alias, or its stream's.
pub(crate) fn item_name(source: &Source) -> Name
    ensures { result ≡ alias_or source.now.alias source.now.stream }
{
    match source.alias {
        Some(alias) => alias,
        None => source.stream,
    }
}

impl Known {
    /// The items of a query, each with the fields of its stream.
    pub(crate) fn scope<'a>(
        &'a self,
        alloc: Global,
        sources: &[Source],
    ) -> Result<Vec<Item<'a>>, NoMemory>
        ensures { (ks : List Named) → Knows self.now ks → IfOk result (λ items. scope items.items ≡ scope_of ks (sources_of sources.now)) }
    {
        let mut items = Vec::new(alloc);
        for source in sources {
            if items.push(self.item(source)).is_err() {
                return Err(NoMemory);
            }
        }
        Ok(items)
    }

    // An item; a stream that is not known has no fields.
    fn item<'a>(&'a self, source: &Source) -> Item<'a>
        ensures { (ks : List Named) → Knows self.now ks → named_item result ≡ item_named ks (source_of source.now) }
    {
        let fields = match self.fields(source.stream) {
            Some(fields) => fields,
            None => &[],
        };
        Item {
            name: item_name(source),
            fields,
        }
    }
}
