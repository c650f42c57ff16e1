// Words that are numbers.
ghost use Rattle.std.specs.Prelude.{◌≡◌, ◌≤◌, ◌<◌, ◌-◌, ◌^◌, min, IfSome};
ghost use Rattle.std.specs.List.{list_all};
ghost use Rattle.river_base.specs.Name.{is_digit};
ghost use Rattle.csv_streams.specs.Number.{value_after};
ghost use Rattle.command_line.specs.Words.{is_number_word, number_to, from_zero};

// How many digits a number has at most.
const MOST_DIGITS: usize = 9;

/// The number that a word of 1 to 9 decimal digits writes, if it is from 1 to `most`.
pub(crate) fn read_number(word: &[u8], most: u32) -> Option<u32>
    requires { most < 2 ^ 32 - 1 }
    ensures bounds { IfSome result (λ number. (1 ≤ number) × (number ≤ most)) }
    ensures number { result ≡ number_to most word.now }
{
    if !is_number(word) {
        return None;
    }
    let number = value(word);
    if 0 < number && number <= most {
        Some(number)
    } else {
        None
    }
}

/// The number that a word of 1 to 9 decimal digits writes, if it is at most `most`.
pub(crate) fn read_from_zero(word: &[u8], most: u32) -> Option<u32>
    requires { most < 2 ^ 32 - 1 }
    ensures { result ≡ from_zero most word.now }
{
    if !is_number(word) {
        return None;
    }
    let number = value(word);
    if number <= most { Some(number) } else { None }
}

fn is_number(word: &[u8]) -> bool
    ensures { result ≡ is_number_word word.now }
{
    !word.is_empty() && word.len() <= MOST_DIGITS && are_digits(word)
}

#[tactic(auto, unfolding(river_base::specs::Name::is_digit))]
fn are_digits(word: &[u8]) -> bool
    ensures { result ≡ list_all is_digit word.now }
{
    for &c in word {
        if !c.is_ascii_digit() {
            return false;
        }
    }
    true
}

// The number that the digits write, at most the greatest u32.
fn value(digits: &[u8]) -> u32
    ensures { result ≡ min (value_after 0 digits.now) (2 ^ 32 - 1) }
{
    let mut n = 0u32;
    for &d in digits {
        n = n
            .saturating_mul(10)
            .saturating_add(u32::from(d.saturating_sub(b'0')));
    }
    n
}
