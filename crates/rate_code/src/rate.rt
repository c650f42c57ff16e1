//! How periods are put together.
ghost use Rattle.std.specs.Prelude.{◌≡◌, ◌/◌, IfSome, IfNone, Ok, Err};
ghost use Rattle.rate_code.specs.Rate.{period_of, IsSmall, SaysStep};
ghost use Rattle.stream_periods.specs.Periods as spec;

/// For so many items more so many more are given, and no more than so many are looked at beyond them.
#[derive(Clone, Copy, Debug, PartialEq, Eq)]
pub struct Rate {
    pub takes: u64,
    pub gives: u64,
    pub reach: u64,
}

/// The greatest common divisor.
pub fn common(a: u64, b: u64) -> u64
    ensures { result ≡ spec.common a b }
{
    let mut x = a;
    let mut y = b;
    while y != 0 {
        let rest = x % y;
        x = y;
        y = rest;
    }
    x
}

// How often a number goes into another; 0 where it is 0.
fn part(a: u64, g: u64) -> u64
    ensures { result ≡ a / g }
{
    if g == 0 { 0 } else { a / g }
}

/// How often so many have to come so that there are so many.
pub fn times_for(wanted: u64, each: u64) -> u64
    ensures { result ≡ spec.times_for wanted each }
{
    if each == 0 || wanted == 0 {
        return 0;
    }
    (wanted - 1) / each + 1
}

/// One stream after another; nothing where a number is too large.
pub fn after(p: Rate, q: Rate) -> Option<Rate>
    ensures some { IfSome result (λ r. period_of r ≡ spec.after (period_of p) (period_of q)) }
    ensures none { IfNone result (IsSmall (spec.after (period_of p) (period_of q)) → ⊥) }
{
    let g = common(p.gives, q.takes);
    let more = times_for(q.reach, p.gives);
    let Some(far) = more.checked_mul(p.takes) else {
        return None
    };
    let Some(takes) = part(q.takes, g).checked_mul(p.takes) else {
        return None
    };
    let Some(gives) = part(p.gives, g).checked_mul(q.gives) else {
        return None
    };
    let Some(reach) = p.reach.checked_add(far) else {
        return None
    };
    Some(Rate {
        takes,
        gives,
        reach,
    })
}

/// What a branch gives in cycles of a joiner, where it has this weight.
pub fn in_cycles(weight: u64, p: Rate) -> Option<Rate>
    ensures some { IfSome result (λ r. period_of r ≡ spec.in_cycles weight (period_of p)) }
    ensures none { IfNone result (IsSmall (spec.in_cycles weight (period_of p)) → ⊥) }
{
    let g = common(p.gives, weight);
    let Some(takes) = part(weight, g).checked_mul(p.takes) else {
        return None
    };
    Some(Rate {
        takes,
        gives: part(p.gives, g),
        reach: p.reach,
    })
}

/// How two branches, each in cycles of the joiner, go together.
#[derive(Clone, Copy, Debug, PartialEq, Eq)]
pub enum Step {
    /// They keep step.
    Kept(Rate),
    /// They do not.
    Unbalanced,
    /// A number is too large.
    Large,
}

/// Two branches side by side.
pub fn beside(p: Rate, q: Rate) -> Step
    ensures { SaysStep (period_of p) (period_of q) result }
{
    let g = common(p.takes, q.takes);
    let m = part(q.takes, g);
    let n = part(p.takes, g);
    let Some(gives) = m.checked_mul(p.gives) else {
        return Step::Large
    };
    let Some(other) = n.checked_mul(q.gives) else {
        return Step::Large
    };
    if gives != other {
        return Step::Unbalanced;
    }
    let Some(takes) = m.checked_mul(p.takes) else {
        return Step::Large
    };
    let reach = if p.reach < q.reach { q.reach } else { p.reach };
    Step::Kept(Rate {
        takes,
        gives,
        reach,
    })
}
