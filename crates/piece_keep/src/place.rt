// The place that a mark tells, and the number of records before it.
ghost use Rattle.std.specs.Prelude.{◌≡◌, ◌≤◌, ◌-◌, ◌^◌, length, min, take, drop};
ghost use Rattle.csv_streams.specs.Number.{after_digits, digits_of, value_after};
ghost use Rattle.piece_keep.specs.Mark.{count_in, place_in};

/// The number at the front of a text, at most the greatest u64; 0 where it begins with no digit.
pub(crate) fn place_in(text: &[u8]) -> u64
    ensures { result ≡ place_in text.now }
{
    value(&text[..digits(text)])
}

/// The number behind the first byte that is no digit.
pub(crate) fn count_in(text: &[u8]) -> u64
    ensures { result ≡ count_in text.now }
{
    match text[digits(text)..].split_first() {
        Some((_, rest)) => place_in(rest),
        None => place_in(b""),
    }
}

// How many digits are at the front.
#[tactic(auto, unfolding(river_base::specs::Name::is_digit))]
fn digits(text: &[u8]) -> usize
    ensures within { result ≤ length text.now }
    ensures are { take result text.now ≡ digits_of text.now }
    ensures behind { drop result text.now ≡ after_digits text.now }
{
    for place in 0..text.len() {
        if !text[place].is_ascii_digit() {
            return place;
        }
    }
    text.len()
}

// The number that the digits write, at most the greatest u64.
fn value(digits: &[u8]) -> u64
    ensures { result ≡ min (value_after 0 digits.now) (2 ^ 64 - 1) }
{
    let mut n = 0u64;
    for &d in digits {
        n = n
            .saturating_mul(10)
            .saturating_add(u64::from(d.saturating_sub(b'0')));
    }
    n
}
