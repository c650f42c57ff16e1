// A reader of tokens.
ghost use Rattle.std.specs.Prelude.{◌≡◌, ◌-◌, ◌<◌, IfOk, OnOk, MatchOption, List, [], ◌∷◌, if◌then◌else◌, IsTrue, ◌↔◌};
ghost use Rattle.std.specs.Int.{IsNonNegative};
ghost use Rattle.text_forms.specs.Tail.{tail};
ghost use Rattle.text_forms.specs.Parse.{begins_with, is_word_at, word_at, symbols_at, name_at, var_at, short_name_at, short_var_at, number_at, count_at, open_at, value_at};
ghost use Rattle.text_forms.specs.Gives.{Gives, PassesOver};

use crate::{ParseFault, TokenSource};
use river_base::Name;
use std::marker::Model;
use text_tokens::{Lexeme, Symbol, Token};

/// A reader of tokens, which contracts see as the tokens that are left.
#[derive(Drop)]
pub struct Reader<'a> {
    rest: &'a [Lexeme<'a>],
}

impl<'a> Model for Reader<'a> {
    ghost use Rattle.std.specs.Prelude.{List};
    ghost use Rattle.text_tokens.specs.Tok.{Tok, tokens_of};

    ghost Value = { List Tok };

    ghost view = { λ r. tokens_of r.rest.now };
}

impl<'a> Reader<'a> {
    ghost use Rattle.text_tokens.specs.Tok.{token_of, tokens_of};

    /// A reader of these tokens.
    pub fn new(tokens: &'a [Lexeme<'a>]) -> Self
        ensures { result ≡ tokens_of tokens.now }
    {
        Reader { rest: tokens }
    }

    /// The next token.
    pub fn peek(&self) -> Option<Token<'a>>
        ensures { MatchOption result (self.now ≡ []) (λ t. self.now ≡ token_of t ∷ tail self.now) }
    {
        Some(self.rest.first()?.token)
    }

    /// Passes over the next token.
    pub fn skip(&mut self)
        ensures { self.new ≡ tail self.old }
    {
        if let [_, rest @ ..] = self.rest {
            self.rest = rest;
        }
    }

    /// Whether no token is left.
    pub fn is_at_end(&self) -> bool
        ensures { IsTrue result ↔ (self.now ≡ []) }
    {
        self.rest.is_empty()
    }

    /// Whether this symbol comes next.
    pub fn is_at(&self, symbol: Symbol) -> bool
        ensures { result ≡ begins_with symbol self.now }
    {
        let Some(Token::Sign(next)) = self.peek() else {
            return false;
        };
        next == symbol
    }

    /// Passes over this symbol where it comes next, and says whether it did.
    pub fn takes(&mut self, symbol: Symbol) -> bool
        ensures taken { result ≡ begins_with symbol self.old }
        ensures rest { self.new ≡ (if result then tail self.old else self.old) }
    {
        let taken = self.is_at(symbol);
        if taken {
            self.skip();
        }
        taken
    }

    /// Passes over these symbols, which have to come next.
    pub fn expect(&mut self, run: &[Symbol]) -> Result<(), ParseFault>
        ensures { PassesOver result self.new (symbols_at run.now self.old) }
    {
        for symbol in run {
            if !self.takes(*symbol) {
                return Err(ParseFault::Syntax);
            }
        }
        Ok(())
    }

    /// Passes over this opening bracket, which has to come next, where so many more brackets may be open; gives how many
    /// may be open behind it.
    #[tactic(auto, using(crate::proofs::Choices::opens))]
    pub fn opens(&mut self, symbol: Symbol, brackets: u32) -> Result<u32, ParseFault>
        ensures passes { PassesOver result self.new (open_at symbol brackets self.old) }
        ensures fewer { IfOk result (λ n. n ≡ brackets - 1) }
        ensures some { OnOk result (0 < brackets) }
    {
        if brackets == 0 {
            return Err(ParseFault::Syntax);
        }
        self.expect(&[symbol])?;
        Ok(brackets - 1)
    }

    /// Whether this word comes next.
    pub fn is_at_word(&self, word: &[u8]) -> bool
        ensures { result ≡ is_word_at word.now self.now }
    {
        let Some(Token::Name(next)) = self.peek() else {
            return false;
        };
        next == word
    }

    /// Passes over this word, which has to come next.
    pub fn word(&mut self, word: &[u8]) -> Result<(), ParseFault>
        ensures { PassesOver result self.new (word_at word.now self.old) }
    {
        if self.is_at_word(word) {
            self.skip();
            Ok(())
        } else {
            Err(ParseFault::Syntax)
        }
    }

    /// The name that has to come next.
    pub fn name(&mut self) -> Result<&'a [u8], ParseFault>
        ensures { Gives (λ text. text.now) result self.new (name_at self.old) }
    {
        let Some(Token::Name(text)) = self.peek() else {
            return Err(ParseFault::Syntax);
        };
        self.skip();
        Ok(text)
    }

    /// The variable that has to come next, without its `$`.
    pub fn var(&mut self) -> Result<&'a [u8], ParseFault>
        ensures { Gives (λ text. text.now) result self.new (var_at self.old) }
    {
        let Some(Token::Var(text)) = self.peek() else {
            return Err(ParseFault::Syntax);
        };
        self.skip();
        Ok(text)
    }

    /// The name that has to come next, of at most 64 bytes.
    #[tactic(auto, unfolding(crate::specs::Parse::short_name_at))]
    pub fn short_name(&mut self) -> Result<Name, ParseFault>
        ensures { Gives (λ name. name) result self.new (short_name_at self.old) }
    {
        let text = self.name()?;
        match Name::from_slice(text) {
            Some(name) => Ok(name),
            None => Err(ParseFault::Syntax),
        }
    }

    /// The variable that has to come next, without its `$`, whose name has at most 64 bytes.
    #[tactic(auto, unfolding(crate::specs::Parse::short_var_at))]
    pub fn short_var(&mut self) -> Result<Name, ParseFault>
        ensures { Gives (λ name. name) result self.new (short_var_at self.old) }
    {
        let text = self.var()?;
        match Name::from_slice(text) {
            Some(name) => Ok(name),
            None => Err(ParseFault::Syntax),
        }
    }

    /// The number that has to come next.
    pub fn number(&mut self) -> Result<u64, ParseFault>
        ensures { Gives (λ value. value) result self.new (number_at self.old) }
    {
        let Some(Token::Number(value)) = self.peek() else {
            return Err(ParseFault::Syntax);
        };
        self.skip();
        Ok(value)
    }

    /// The number that has to come next, which counts something: at most 2^32 - 1.
    pub fn count(&mut self) -> Result<u32, ParseFault>
        ensures { Gives (λ value. value) result self.new (count_at self.old) }
    {
        let value = self.number()?;
        match u32::try_from(value) {
            Ok(count) => Ok(count),
            Err(_) => Err(ParseFault::Syntax),
        }
    }

    /// The number that has to come next, as a value.
    pub fn value(&mut self) -> Result<i64, ParseFault>
        ensures reads { Gives (λ value. value) result self.new (value_at self.old) }
        ensures natural { IfOk result IsNonNegative }
    {
        let value = self.number()?;
        match i64::try_from(value) {
            Ok(value) => Ok(value),
            Err(_) => Err(ParseFault::Syntax),
        }
    }
}

impl<'a> TokenSource for Reader<'a> {
    ghost rest = { λ r. r };

    fn takes(&mut self, symbol: Symbol) -> bool {
        self.takes(symbol)
    }
}
