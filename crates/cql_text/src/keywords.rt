// Keywords in any letter case, and names that users give.
ghost use Rattle.std.specs.Prelude.{◌≡◌, ◌||◌, if◌then◌else◌, IsTrue, map};
ghost use Rattle.std.specs.List.{list_any};
ghost use Rattle.std.specs.Option.{SomeIff};
ghost use Rattle.text_forms.specs.Gives.{Gives, PassesOver};
ghost use Rattle.text_forms.specs.Tail.{tail};
ghost use Rattle.cql_text.specs.Reading.{is_alias_at};
ghost use Rattle.cql_text.specs.Words.{is_keyword, is_keyword_at, keyword_at, is_plain, plain_at};

use river_base::Name;
use text_forms::{ParseFault, Reader, is_free};
use text_tokens::Token;

const WORDS: &[&[u8]] = &[
    b"register",
    b"stream",
    b"query",
    b"select",
    b"istream",
    b"dstream",
    b"rstream",
    b"from",
    b"where",
    b"as",
    b"and",
    b"or",
    b"not",
    b"now",
    b"range",
    b"unbounded",
    b"rows",
    b"second",
    b"seconds",
];

/// Whether this text is this word, in any letter case.
pub(crate) fn is_keyword(text: &[u8], word: &[u8]) -> bool
    ensures { result ≡ is_keyword word.now text.now }
{
    text.eq_ignore_ascii_case(word)
}

/// Whether this word comes next.
pub(crate) fn is_at_keyword(reader: &Reader<'_>, word: &[u8]) -> bool
    ensures { result ≡ is_keyword_at word.now reader.now }
{
    let Some(Token::Name(text)) = reader.peek() else {
        return false;
    };
    is_keyword(text, word)
}

/// Passes over this word where it comes next, and says whether it did.
pub(crate) fn takes_keyword(reader: &mut Reader<'_>, word: &[u8]) -> bool
    ensures taken { result ≡ is_keyword_at word.now reader.old }
    ensures rest { reader.new ≡ (if result then tail reader.old else reader.old) }
{
    let taken = is_at_keyword(reader, word);
    if taken {
        reader.skip();
    }
    taken
}

/// Passes over this word, which has to come next.
pub(crate) fn keyword(reader: &mut Reader<'_>, word: &[u8]) -> Result<(), ParseFault>
    ensures { PassesOver result reader.new (keyword_at word.now reader.old) }
{
    if takes_keyword(reader, word) {
        Ok(())
    } else {
        Err(ParseFault::Syntax)
    }
}

// Whether this text is one of these words, in any letter case.
fn is_among(text: &[u8], words: &[&[u8]]) -> bool
    ensures { result ≡ list_any (λ word. is_keyword word text.now) (map (λ word. word.now) words.now) }
{
    for word in words {
        if is_keyword(text, word) {
            return true;
        }
    }
    false
}

/// The name of this text, where users may give it: at most 40 bytes, no `@`, and no keyword.
#[tactic(auto, unfolding(crate::specs::Words::is_plain))]
pub(crate) fn plain(text: &[u8]) -> Option<Name>
    ensures { SomeIff result (IsTrue (is_plain text.now)) text.now }
{
    if is_free(text, &[]) && !is_among(text, WORDS) {
        Name::from_slice(text)
    } else {
        None
    }
}

/// The name that has to come next, which is one that users may give.
#[tactic(auto, unfolding(crate::specs::Words::plain_at))]
pub(crate) fn plain_name(reader: &mut Reader<'_>) -> Result<Name, ParseFault>
    ensures { Gives (λ name. name) result reader.new (plain_at reader.old) }
{
    let text = reader.name()?;
    match plain(text) {
        Some(name) => Ok(name),
        None => Err(ParseFault::Syntax),
    }
}

/// Whether a name of its own comes next, behind `As` or not.
pub(crate) fn is_at_alias(reader: &Reader<'_>) -> bool
    ensures { result ≡ is_alias_at reader.now }
{
    let Some(Token::Name(text)) = reader.peek() else {
        return false;
    };
    is_keyword(text, b"as") || plain(text).is_some()
}
