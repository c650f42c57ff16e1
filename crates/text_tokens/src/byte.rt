// Classes of bytes.
ghost use Rattle.std.specs.Prelude.{◌≡◌};
ghost use Rattle.std.specs.List.{prefix_len};
ghost use Rattle.text_tokens.specs.Lexis.{first_is};
ghost use Rattle.text_tokens.specs.Classes.{belongs};

use river_base::{is_letter, is_word};

/// A class of bytes.
#[derive(Clone, Copy)]
pub(crate) enum Class {
    /// What separates tokens: a space, a tab, a carriage return or a line feed.
    Blank,
    /// What a name can begin with: a letter or `_`.
    Letter,
    /// Any byte but a line feed.
    InLine,
    /// A letter, a digit, `_` or `@`.
    Word,
    /// A decimal digit.
    Digit,
}

/// Whether this byte is of the class.
#[tactic(auto, unfolding(crate::specs::Lexis::is_blank, crate::specs::Lexis::is_digit, crate::specs::Lexis::is_in_line))]
pub(crate) fn belongs(class: Class, byte: u8) -> bool
    ensures { result ≡ belongs class byte }
{
    match class {
        Class::Blank => byte == b' ' || byte == b'\t' || byte == b'\r' || byte == b'\n',
        Class::Letter => is_letter(byte),
        Class::InLine => byte != b'\n',
        Class::Word => is_word(byte),
        Class::Digit => byte.is_ascii_digit(),
    }
}

/// Whether the text begins with a byte of the class.
#[tactic(auto, unfolding(crate::specs::Lexis::first_is))]
pub(crate) fn first_is(class: Class, text: &[u8]) -> bool
    ensures { result ≡ first_is (belongs class) text.now }
{
    match text {
        [first, ..] => belongs(class, *first),
        [] => false,
    }
}

/// How many bytes at the front are of the class.
pub(crate) fn run_len(class: Class, text: &[u8]) -> usize
    ensures { result ≡ prefix_len (belongs class) text.now }
{
    for n in 0..text.len() {
        if !belongs(class, text[n]) {
            return n;
        }
    }
    text.len()
}
