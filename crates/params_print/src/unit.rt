// Units of plain programs: instances of streams under values.
ghost use Rattle.std.specs.Prelude.{◌≡◌, ◌++◌, ◌∷◌, OnOk};
ghost use Rattle.streamit_text.specs.Program.{Adds, AFilter, APipeline, ASplitJoin};
ghost use Rattle.params_text.specs.Program.{filter_of, dealing_of, rounds_of};
ghost use Rattle.text_tokens.specs.Spaced.{spaced};
ghost use Rattle.params_text.specs.Toks.{unit_toks};
ghost use Rattle.params_model.specs.Constants.{AreFitOption, IsFitDealing, IsFitFilter};
ghost use Rattle.params_model.specs.Environment.{option_counts, dealing};
ghost use Rattle.params_model.specs.Plain.{plain_filter};
ghost use Rattle.params_print.specs.Heads.{name_written, names_written};

use crate::filter::filter;
use crate::instance::{adds, end, head};
use crate::round::{join, split};
use crate::{Bindings, Instance};
use params_text::{ParamFilter, ParamSplitJoin};
use river_base::{Bytes, NoMemory};

/// Appends the unit of an instance of a filter under values.
#[tactic(auto, using(crate::proofs::Texts::texts))]
pub fn print_filter(
    instance: &Instance,
    known: &Bindings,
    tree: &ParamFilter,
    to: &mut Bytes,
) -> Result<(), NoMemory>
    requires { IsFitFilter (filter_of tree.now) }
    ensures { OnOk result (to.new ≡ to.old
        ++ spaced (unit_toks (record { name = name_written instance.now; body = AFilter (plain_filter known.now (filter_of tree.now)) }))) }
{
    head(b"filter", instance, to)?;
    filter(known, tree, to)?;
    end(to)
}

/// Appends the unit of an instance of a pipeline, which adds these instances.
#[tactic(auto, using(crate::proofs::Texts::texts))]
pub fn print_pipeline(
    instance: &Instance,
    children: &[Instance],
    to: &mut Bytes,
) -> Result<(), NoMemory>
    ensures { (a : Adds) → names_written children.now ≡ a.first ∷ a.others
        → OnOk result (to.new ≡ to.old ++ spaced (unit_toks (record { name = name_written instance.now; body = APipeline a }))) }
{
    head(b"pipeline", instance, to)?;
    adds(children, to)?;
    end(to)
}

/// Appends the unit of an instance of a split-join under values, which adds these instances.
#[tactic(auto, using(crate::proofs::Texts::texts))]
pub fn print_split_join(
    instance: &Instance,
    known: &Bindings,
    tree: &ParamSplitJoin,
    children: &[Instance],
    to: &mut Bytes,
) -> Result<(), NoMemory>
    requires split { IsFitDealing (dealing_of tree.now.split) }
    requires join { AreFitOption (rounds_of tree.now.join) }
    ensures { (a : Adds) → names_written children.now ≡ a.first ∷ a.others
        → OnOk result (to.new ≡ to.old ++ spaced (unit_toks
        (record {
          name = name_written instance.now;
          body = ASplitJoin (dealing known.now (dealing_of tree.now.split)) a
              (option_counts known.now (rounds_of tree.now.join));
        }))) }
{
    head(b"splitjoin", instance, to)?;
    split(known, &tree.split, to)?;
    adds(children, to)?;
    join(known, &tree.join, to)?;
    end(to)
}
