// Units written out.
ghost use Rattle.std.specs.Prelude.{◌≡◌, suc, length, ◌∷◌};
ghost use Rattle.streamit_text.specs.Program as plain;
ghost use Rattle.params_text.specs.Program.{filter_of, dealing_of, rounds_of};
ghost use Rattle.params_model.specs.Environment.{dealing, option_counts};
ghost use Rattle.params_model.specs.Making.{Made};
ghost use Rattle.params_model.specs.Plain.{plain_filter};
ghost use Rattle.params_front.specs.Standing.{Stands, WritesInstance};
ghost use Rattle.params_print.specs.Heads.{names_written};
ghost use Rattle.params_model.specs.Constants.{IsFitFilter, IsFitDealing, AreFitOption};

use crate::Making;
use crate::body::Scope;
use params_print::{Bindings, Instance, print_filter, print_pipeline, print_split_join};
use params_text::{ParamFilter, ParamSplitJoin, Unit};
use river_base::{Name, NoMemory};

impl Making {
    /// A filter of the unit behind these.
    pub fn write_filter(
        &mut self,
        above: &[Unit],
        stream: Name,
        known: &Bindings,
        tree: &ParamFilter,
    ) -> Result<Instance, NoMemory>
        requires { IsFitFilter (filter_of tree.now) }
        ensures { (m : Made) → Stands self.old m
            → WritesInstance result self.new (suc (length above.now)) stream (plain.AFilter (plain_filter known.now (filter_of tree.now))) m }
    {
        let instance = self.next(stream)?;
        print_filter(&instance, known, tree, &mut self.text)?;
        self.wrote(above, instance)
    }

    /// A pipeline of the unit behind these, with these children.
    pub fn write_pipeline(
        &mut self,
        above: &[Unit],
        stream: Name,
        children: &[Instance],
    ) -> Result<Instance, NoMemory>
        ensures { (m : Made) (a : plain.Adds) → Stands self.old m → names_written children.now ≡ a.first ∷ a.others
            → WritesInstance result self.new (suc (length above.now)) stream (plain.APipeline a) m }
    {
        let instance = self.next(stream)?;
        print_pipeline(&instance, children, &mut self.text)?;
        self.wrote(above, instance)
    }

    /// A split-join of the unit behind these, with these children.
    pub fn write_split_join(
        &mut self,
        above: &[Unit],
        stream: Name,
        scope: &Scope,
        all: &ParamSplitJoin,
    ) -> Result<Instance, NoMemory>
        requires split { IsFitDealing (dealing_of all.now.split) }
        requires join { AreFitOption (rounds_of all.now.join) }
        ensures { (m : Made) (a : plain.Adds) → Stands self.old m → names_written scope.now.children ≡ a.first ∷ a.others
            → WritesInstance result self.new (suc (length above.now)) stream
            (plain.ASplitJoin (dealing scope.now.known (dealing_of all.now.split)) a (option_counts scope.now.known (rounds_of all.now.join))) m }
    {
        let instance = self.next(stream)?;
        print_split_join(
            &instance,
            &scope.known,
            all,
            scope.children.as_slice(),
            &mut self.text,
        )?;
        self.wrote(above, instance)
    }
}
