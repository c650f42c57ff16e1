//! Laws over the definitions alone.
ghost use Rattle.text_tokens.specs.Laws.{TokensAreSlices, TokensAreApart, FaultsAreThere, UnitsAreCut};

/// The tokens of a text ascend; each token's bytes are the slice of the text at its span, no comment begins there, and no
/// token that could stand there is longer.
pub fn tokens_are_slices()
    ensures { TokensAreSlices }
{}

/// What lies outside the spans of the tokens of a text is separators and comments alone.
pub fn tokens_are_apart()
    ensures { TokensAreApart }
{}

/// Where a fault is told, it is there: at a bad byte no token, separator or comment begins, and at a big number one
/// of a value above 9223372036854775807.
pub fn faults_are_there()
    ensures { FaultsAreThere }
{}

/// The units of tokens joined are the tokens; each has a token, and each but the last ends at the first token that ends
/// it: a semicolon outside braces, a closing brace where none is open, or one that closes the last and has no `else`
/// behind it.
pub fn units_are_cut()
    ensures { UnitsAreCut }
{}
