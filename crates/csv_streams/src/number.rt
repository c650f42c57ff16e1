// The number that a field writes.
ghost use Rattle.std.specs.Prelude.{◌≡◌, ◌-◌, ◌≤◌, length, take, drop, option_map};
ghost use Rattle.std.specs.List.{list_all};
ghost use Rattle.csv_streams.specs.Number as number;

/// The value of a field: spaces, an optional sign, one or more digits, and spaces, with a value of 64 bits.
pub fn read_number(field: &[u8]) -> Option<i64>
    ensures { result ≡ number.number_in field.now }
{
    let text = after_spaces(field);
    match text.split_first() {
        Some((b'-', rest)) => negative(whole(rest)?),
        Some((b'+', rest)) => i64::try_from(whole(rest)?).ok(),
        _ => i64::try_from(whole(text)?).ok(),
    }
}

fn after_spaces(text: &[u8]) -> &[u8]
    ensures { result.now ≡ number.after_spaces text.now }
{
    let mut start = 0;
    while start < text.len() && text[start] == b' ' {
        start += 1;
    }
    &text[start..]
}

// The number of one or more digits and then spaces alone, at most the greatest u64.
fn whole(text: &[u8]) -> Option<u64>
    ensures { result ≡ option_map number.capped (number.whole_number text.now) }
{
    let count = digit_count(text);
    if count == 0 || !all_spaces(&text[count..]) {
        return None;
    }
    Some(magnitude(&text[..count]))
}

// How many digits stand at the front.
#[tactic(auto, unfolding(river_base::specs::Name::is_digit))]
fn digit_count(text: &[u8]) -> usize
    ensures digits { take result text.now ≡ number.digits_of text.now }
    ensures rest { drop result text.now ≡ number.after_digits text.now }
    ensures within { result ≤ length text.now }
{
    let mut count = 0;
    while count < text.len() && text[count].is_ascii_digit() {
        count += 1;
    }
    count
}

fn all_spaces(text: &[u8]) -> bool
    ensures { result ≡ list_all number.is_space text.now }
{
    for &c in text {
        if c != b' ' {
            return false;
        }
    }
    true
}

// The number that the digits write, at most the greatest u64.
fn magnitude(digits: &[u8]) -> u64
    ensures { result ≡ number.capped (number.value_after 0 digits.now) }
{
    let mut n = 0u64;
    for &d in digits {
        n = n
            .saturating_mul(10)
            .saturating_add(u64::from(d.saturating_sub(b'0')));
    }
    n
}

// The number with a minus.
fn negative(n: u64) -> Option<i64>
    ensures { result ≡ number.negative n }
{
    if n == 1 << 63 {
        return Some(i64::MIN);
    }
    match i64::try_from(n) {
        Ok(n) => Some(-n),
        Err(_) => None,
    }
}
