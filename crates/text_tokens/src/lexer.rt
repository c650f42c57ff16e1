// From bytes to tokens.
ghost use Rattle.std.specs.Prelude.{◌<◌, ◌^◌, length};
ghost use Rattle.text_tokens.specs.Lexis.{Lexes};

use crate::piece::{Piece, next_piece};
use crate::{LexFault, Lexeme, Tokens};
use river_base::Bytes;
use std::alloc::Global;

/// The tokens of a text, with their places.
///
/// Space, tab, carriage return and line feed separate tokens; a comment is `//` or `#` up to the end of the line,
/// or `/*` up to the next `*/`; of symbols the longest that fits is taken.
///
/// # Errors
///
/// `BadByte` at the first place where no token, separator or comment begins, `BigNumber` where a number above
/// 9223372036854775807 begins, whichever comes first; `NoMemory` where there is no memory.
#[tactic(auto, using(crate::proofs::Marks::pieces))]
pub fn lex<'a>(alloc: Global, text: &'a Bytes) -> Result<Tokens<'a>, LexFault>
    requires { length text.now < 2 ^ 32 }
    ensures { Lexes result text.now }
{
    let source = text.as_slice();
    let mut lexemes = Vec::new(alloc);
    let mut at = 0;
    while at < source.len() {
        let (_, rest) = source.split_at(at);
        match next_piece(rest) {
            Piece::Blank(len) => at += len,
            Piece::Token(token, len) => {
                let start = at as u32;
                at += len;
                let end = at as u32;
                lexemes.push(Lexeme { token, start, end })?;
            }
            Piece::Bad => return Err(LexFault::BadByte { at: at as u32 }),
            Piece::Big => return Err(LexFault::BigNumber { at: at as u32 }),
        }
    }
    Ok(Tokens { lexemes })
}
