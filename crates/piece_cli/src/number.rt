// Words that are numbers.
ghost use Rattle.std.specs.Prelude.{◌≡◌, ◌≤◌, ◌-◌, ◌^◌, min, IfSome};
ghost use Rattle.std.specs.List.{list_all};
ghost use Rattle.river_base.specs.Name.{is_digit};
ghost use Rattle.csv_streams.specs.Number.{value_after};
ghost use Rattle.piece_cli.specs.Words.{is_number_word, size_of};

// How many digits a number has at most.
const MOST_DIGITS: usize = 6;

// How many records a piece has at most: what a run takes.
const MOST_RECORDS: u32 = 100_000;

/// The number that a word of 1 to 6 decimal digits writes, if it is from 1 to 100,000.
pub(crate) fn read_size(word: &[u8]) -> Option<u32>
    ensures bounds { IfSome result (λ size. (1 ≤ size) × (size ≤ 100000)) }
    ensures size { result ≡ size_of word.now }
{
    if !is_number(word) {
        return None;
    }
    let size = value(word);
    if 0 < size && size <= MOST_RECORDS {
        Some(size)
    } else {
        None
    }
}

fn is_number(word: &[u8]) -> bool
    ensures { result ≡ is_number_word word.now }
{
    !word.is_empty() && word.len() <= MOST_DIGITS && are_digits(word)
}

#[tactic(auto, unfolding(river_base::specs::Name::is_digit))]
fn are_digits(word: &[u8]) -> bool
    ensures { result ≡ list_all is_digit word.now }
{
    for &c in word {
        if !c.is_ascii_digit() {
            return false;
        }
    }
    true
}

// The number that the digits write, at most the greatest u32.
fn value(digits: &[u8]) -> u32
    ensures { result ≡ min (value_after 0 digits.now) (2 ^ 32 - 1) }
{
    let mut n = 0u32;
    for &d in digits {
        n = n
            .saturating_mul(10)
            .saturating_add(u32::from(d.saturating_sub(b'0')));
    }
    n
}
