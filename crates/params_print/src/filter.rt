// Filters under values.
ghost use Rattle.std.specs.Prelude.{◌≡◌, ◌++◌, OnOk};
ghost use Rattle.text_blocks.specs.Parts.{optional};
ghost use Rattle.streamit_text.specs.Tree.{expression, optional_block};
ghost use Rattle.params_text.specs.Program.{work_of, filter_of};
ghost use Rattle.text_tokens.specs.Spaced.{spaced};
ghost use Rattle.params_text.specs.Toks.{fields_toks, init_toks, rate_toks, work_toks, prework_toks, filter_toks};
ghost use Rattle.params_model.specs.Constants.{IsFitOption, IsFitWork, IsFitPrework, IsFitFilter};
ghost use Rattle.params_model.specs.Environment.{option_count, rated_work, rated_prework};
ghost use Rattle.params_model.specs.Plain.{put_optional, put_work, put_prework, plain_filter};
ghost use Rattle.params_print.specs.Heads.{all_rates};

use crate::statement::block;
use crate::token::tokens;
use crate::{Bindings, count};
use params_text::{ParamFilter, ParamRates, ParamWork};
use river_base::{Bytes, Name, NoMemory};
use streamit_text::{Block, Expr};
use text_tokens::{Symbol, Token};

// Appends the fields.
#[tactic(auto, using(crate::proofs::Texts::texts))]
fn fields(names: &[Name], to: &mut Bytes) -> Result<(), NoMemory>
    ensures { OnOk result (to.new ≡ to.old ++ spaced (fields_toks names.now)) }
{
    'names: for each in names {
        let all = [
            Token::Name(b"int"),
            Token::Name(each.as_slice()),
            Token::Sign(Symbol::Semicolon),
        ];
        tokens(&all, to)?;
    }
    Ok(())
}

// Appends `init`, where it is written.
#[tactic(auto, using(crate::proofs::Texts::texts))]
fn init(known: &Bindings, init: &Option<Block>, to: &mut Bytes) -> Result<(), NoMemory>
    ensures { OnOk result (to.new ≡ to.old ++ spaced (init_toks (put_optional known.now (optional_block init.now)))) }
{
    match init {
        None => Ok(()),
        Some(all) => {
            tokens(&[Token::Name(b"init")], to)?;
            block(known, all, to)
        }
    }
}

// Appends the value of a rate behind its word, where it is written.
fn rate(known: &Bindings, word: &[u8], rate: &Option<Expr>, to: &mut Bytes) -> Result<(), NoMemory>
    requires { IsFitOption (optional expression rate.now) }
    ensures { OnOk result (to.new ≡ to.old ++ spaced (rate_toks word.now (option_count known.now (optional expression rate.now)))) }
{
    match rate {
        None => Ok(()),
        Some(c) => {
            let number = Token::Number(count(known, c));
            tokens(&[Token::Name(word), number], to)
        }
    }
}

// Appends the values of the rates.
#[tactic(auto, using(crate::proofs::Texts::texts))]
fn rates(known: &Bindings, all: &ParamRates, to: &mut Bytes) -> Result<(), NoMemory>
    requires push { IsFitOption (optional expression all.now.push) }
    requires pop { IsFitOption (optional expression all.now.pop) }
    requires peek { IsFitOption (optional expression all.now.peek) }
    ensures { OnOk result (to.new
        ≡ to.old ++ spaced (all_rates (option_count known.now (optional expression all.now.push)) (option_count known.now (optional expression all.now.pop))
        (option_count known.now (optional expression all.now.peek)))) }
{
    rate(known, b"push", &all.push, to)?;
    rate(known, b"pop", &all.pop, to)?;
    rate(known, b"peek", &all.peek, to)
}

// Appends the rates and the block of `work` or `prework`.
#[tactic(auto, using(crate::proofs::Texts::texts))]
fn work(known: &Bindings, work: &ParamWork, to: &mut Bytes) -> Result<(), NoMemory>
    requires { IsFitWork (work_of work.now) }
    ensures { OnOk result (to.new ≡ to.old ++ spaced (work_toks (put_work known.now (rated_work known.now (work_of work.now))))) }
{
    rates(known, &work.rates, to)?;
    block(known, &work.block, to)
}

// Appends `prework`, where it is written.
#[tactic(auto, using(crate::proofs::Texts::texts))]
fn prework(known: &Bindings, prework: &Option<ParamWork>, to: &mut Bytes) -> Result<(), NoMemory>
    requires { IsFitPrework (optional work_of prework.now) }
    ensures { OnOk result (to.new ≡ to.old ++ spaced (prework_toks (put_prework known.now (rated_prework known.now (optional work_of prework.now))))) }
{
    match prework {
        None => Ok(()),
        Some(one) => {
            tokens(&[Token::Name(b"prework")], to)?;
            work(known, one, to)
        }
    }
}

// Appends the rest of the unit of a filter.
#[tactic(auto, using(crate::proofs::Texts::texts))]
pub(crate) fn filter(known: &Bindings, tree: &ParamFilter, to: &mut Bytes) -> Result<(), NoMemory>
    requires { IsFitFilter (filter_of tree.now) }
    ensures { OnOk result (to.new ≡ to.old ++ spaced (filter_toks (plain_filter known.now (filter_of tree.now)))) }
{
    fields(tree.fields.as_slice(), to)?;
    init(known, &tree.init, to)?;
    prework(known, &tree.prework, to)?;
    tokens(&[Token::Name(b"work")], to)?;
    work(known, &tree.work, to)
}
