// Lines of a text.
ghost use Rattle.std.specs.Prelude.{◌≡◌, ◌≤◌, ◌<◌, ◌-◌, nat_eq, if◌then◌else◌, drop, take, length};
ghost use Rattle.stream_periods.specs.Texts.{behind_line, first_lines, lines_behind};

// The place behind so many lines from a place on; the end of the text where it has fewer.
fn place_behind(text: &[u8], from: usize, lines: u64) -> usize
    requires { from ≤ length text.now }
    ensures after { from ≤ result }
    ensures within { result ≤ length text.now }
    ensures behind { drop result text.now ≡ lines_behind lines (drop from text.now) }
    ensures before { take (result - from) (drop from text.now) ≡ first_lines lines (drop from text.now) }
{
    let mut place = from;
    let mut left = lines;
    while left > 0 && place < text.len() {
        left = after(text[place], left);
        place += 1;
    }
    place
}

// How many lines are left behind a byte.
fn after(byte: u8, left: u64) -> u64
    requires { 0 < left }
    ensures { result ≡ (if nat_eq byte 10 then left - 1 else left) }
{
    if byte == b'\n' { left - 1 } else { left }
}

/// The lines of a text behind its first line and so many more.
#[tactic(auto, using(crate::proofs::Counted::lines))]
pub fn all_lines(text: &[u8], let_go: u64) -> &[u8]
    ensures { result.now ≡ lines_behind let_go (behind_line text.now) }
{
    let from = place_behind(text, 0, 1);
    &text[place_behind(text, from, let_go)..]
}

/// Behind the first line of a text so many lines, without the first ones, so many as are let go.
#[tactic(auto, using(crate::proofs::Counted::lines))]
pub fn some_lines(text: &[u8], let_go: u64, keep: u64) -> &[u8]
    ensures { result.now ≡ lines_behind let_go (first_lines keep (behind_line text.now)) }
{
    let from = place_behind(text, 0, 1);
    let kept = &text[from..place_behind(text, from, keep)];
    &kept[place_behind(kept, 0, let_go)..]
}
