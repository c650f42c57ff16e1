// Splitters and joiners under values.
ghost use Rattle.std.specs.Prelude.{◌≡◌, ◌++◌, map, OnOk};
ghost use Rattle.streamit_text.specs.Tree.{expression};
ghost use Rattle.params_text.specs.Program.{dealing_of, rounds_of};
ghost use Rattle.text_tokens.specs.Spaced.{spaced};
ghost use Rattle.params_text.specs.Toks.{more_numbers, numbers_toks, weights_toks, dealing_toks, split_toks, join_toks};
ghost use Rattle.params_model.specs.Constants.{AreFitOption, IsFitDealing};
ghost use Rattle.params_model.specs.Environment.{counts_in, option_counts, dealing};
ghost use Rattle.params_model.specs.Laws.{AreFit};

use crate::token::tokens;
use crate::{Bindings, count};
use params_text::{ParamSplit, Rounds};
use river_base::{Bytes, NoMemory};
use streamit_text::Expr;
use text_tokens::{Symbol, Token};

// Appends the value of each weight behind a comma.
#[tactic(auto, using(crate::proofs::Texts::texts))]
fn more_numbers(known: &Bindings, cs: &[Expr], to: &mut Bytes) -> Result<(), NoMemory>
    requires { AreFit (map expression cs.now) }
    ensures { OnOk result (to.new ≡ to.old ++ spaced (more_numbers (counts_in known.now (map expression cs.now)))) }
{
    'cs: for each in cs {
        let number = Token::Number(count(known, each));
        tokens(&[Token::Sign(Symbol::Comma), number], to)?;
    }
    Ok(())
}

// Appends the values of weights with commas between them.
#[tactic(auto, using(crate::proofs::Texts::texts))]
fn numbers(known: &Bindings, cs: &[Expr], to: &mut Bytes) -> Result<(), NoMemory>
    requires { AreFit (map expression cs.now) }
    ensures { OnOk result (to.new ≡ to.old ++ spaced (numbers_toks (counts_in known.now (map expression cs.now)))) }
{
    let Some((first, rest)) = cs.split_first() else {
        return Ok(());
    };
    tokens(&[Token::Number(count(known, first))], to)?;
    more_numbers(known, rest, to)
}

// Appends the values of the weights in brackets, where there are brackets.
#[tactic(auto, using(crate::proofs::Texts::texts))]
fn weights(known: &Bindings, rounds: &Rounds, to: &mut Bytes) -> Result<(), NoMemory>
    requires { AreFitOption (rounds_of rounds.now) }
    ensures { OnOk result (to.new ≡ to.old ++ spaced (weights_toks (option_counts known.now (rounds_of rounds.now)))) }
{
    match &rounds.weights {
        None => Ok(()),
        Some(cs) => {
            tokens(&[Token::Sign(Symbol::Open)], to)?;
            numbers(known, cs.as_slice(), to)?;
            tokens(&[Token::Sign(Symbol::Close)], to)
        }
    }
}

// Appends how a splitter deals.
#[tactic(auto, using(crate::proofs::Texts::texts))]
fn deal(known: &Bindings, split: &ParamSplit, to: &mut Bytes) -> Result<(), NoMemory>
    requires { IsFitDealing (dealing_of split.now) }
    ensures { OnOk result (to.new ≡ to.old ++ spaced (dealing_toks (dealing known.now (dealing_of split.now)))) }
{
    match split {
        ParamSplit::Duplicate => tokens(&[Token::Name(b"duplicate")], to),
        ParamSplit::RoundRobin(rounds) => {
            tokens(&[Token::Name(b"roundrobin")], to)?;
            weights(known, rounds, to)
        }
    }
}

// Appends a splitter.
#[tactic(auto, using(crate::proofs::Texts::texts))]
pub(crate) fn split(known: &Bindings, split: &ParamSplit, to: &mut Bytes) -> Result<(), NoMemory>
    requires { IsFitDealing (dealing_of split.now) }
    ensures { OnOk result (to.new ≡ to.old ++ spaced (split_toks (dealing known.now (dealing_of split.now)))) }
{
    tokens(&[Token::Name(b"split")], to)?;
    deal(known, split, to)?;
    tokens(&[Token::Sign(Symbol::Semicolon)], to)
}

// Appends a joiner.
#[tactic(auto, using(crate::proofs::Texts::texts))]
pub(crate) fn join(known: &Bindings, rounds: &Rounds, to: &mut Bytes) -> Result<(), NoMemory>
    requires { AreFitOption (rounds_of rounds.now) }
    ensures { OnOk result (to.new ≡ to.old ++ spaced (join_toks (option_counts known.now (rounds_of rounds.now)))) }
{
    tokens(&[Token::Name(b"join"), Token::Name(b"roundrobin")], to)?;
    weights(known, rounds, to)?;
    tokens(&[Token::Sign(Symbol::Semicolon)], to)
}
