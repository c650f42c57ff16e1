// Names of queues, variables and operators.
ghost use Rattle.std.specs.Prelude.{◌≡◌, ◌≤◌, IsTrue, ◌↔◌, Some, length};
ghost use Rattle.std.specs.List.{list_all};
ghost use Rattle.std.specs.Option.{SomeIff};
ghost use Rattle.std.specs.Cmp.{partial_equiv_from_equiv, partial_order_from_agreeing_total};
ghost use Rattle.std.specs.Cmp.Rules.{hashing};
ghost use Rattle.std.specs.Hash as fed;
ghost use Rattle.std.proofs.Common.{refl, rules};
ghost use Rattle.river_base.specs.Name.{is_letter, is_word, is_name, name_eq, name_cmp, name_equiv, name_total, name_ties};

use std::cmp::Ordering;
use std::hash::{Hash, Hasher};
use std::marker::Model;

/// How many bytes a name has at most.
pub const MAX_NAME: usize = 64;

/// A name: a letter or `_`, then letters, digits, `_` and `@`, in all 1 to 64 bytes. Contracts see it as the list of its bytes.
#[derive(Clone, Copy)]
pub struct Name {
    len: usize,
    bytes: [u8; 64],
}

impl Model for Name {
    ghost use Rattle.std.specs.Prelude.{ℕ, List, length, take};
    ghost use Rattle.river_base.specs.Name.{HoldsName};
    ghost use Rattle.river_base.specs.Short.{padded, rebuilt};

    ghost Value = { List ℕ };

    ghost view = { λ n. take n.len n.bytes };

    ghost invariant = { λ n. HoldsName n.len n.bytes };

    ghost inverse = { λ bs. record { len = length bs; bytes = padded 64 0 bs } };

    ghost inverse_ok = { λ a h. rebuilt 64 0 (λ n bs. record { len = n; bytes = bs }) a.len a.bytes h.short };
}

impl Name {
    /// The name of these bytes; None exactly where they are no name, or more than 64.
    pub fn from_slice(bytes: &[u8]) -> Option<Name>
        ensures { SomeIff result (IsTrue (is_name bytes.now)) bytes.now }
    {
        if is_name(bytes) {
            Some(Name::of(bytes))
        } else {
            None
        }
    }

    /// The name of bytes that are one.
    pub fn of(bytes: &[u8]) -> Name
        requires { IsTrue (is_name bytes.now) }
        ensures { result ≡ bytes.now }
    {
        let mut all = [0; 64];
        for i in 0..bytes.len() {
            all[i] = bytes[i];
        }
        Name {
            len: bytes.len(),
            bytes: all,
        }
    }

    /// The bytes.
    pub fn as_slice(&self) -> &[u8]
        ensures bytes { result.now ≡ self.now }
        ensures named { IsTrue (is_name self.now) }
        ensures some { 1 ≤ length self.now }
        ensures at_most { length self.now ≤ 64 }
    {
        &self.bytes[..self.len]
    }
}

// Whether the bytes are a name of at most 64 bytes.
fn is_name(bytes: &[u8]) -> bool
    ensures { result ≡ is_name bytes.now }
{
    match bytes.split_first() {
        None => false,
        Some((first, rest)) => is_letter(*first) && all_words(rest) && rest.len() < MAX_NAME,
    }
}

/// Whether this byte is a letter or `_`, with which a name begins.
#[tactic(auto, unfolding(crate::specs::Name::is_letter))]
pub fn is_letter(byte: u8) -> bool
    ensures { result ≡ is_letter byte }
{
    byte.is_ascii_alphabetic() || byte == b'_'
}

/// Whether this byte may stand in a name after its first: a letter, a digit, `_` or `@`.
#[tactic(auto, unfolding(crate::specs::Name::is_word, crate::specs::Name::is_digit))]
pub fn is_word(byte: u8) -> bool
    ensures { result ≡ is_word byte }
{
    is_letter(byte) || byte.is_ascii_digit() || byte == b'@'
}

fn all_words(bytes: &[u8]) -> bool
    ensures { result ≡ list_all is_word bytes.now }
{
    bytes.iter().all(|byte| is_word(*byte))
}

impl PartialEq for Name {
    ghost eq = { name_eq };

    ghost laws = { partial_equiv_from_equiv name_equiv };

    fn eq(&self, other: &Name) -> bool {
        self.as_slice() == other.as_slice()
    }
}

impl Eq for Name {
    ghost laws = { name_equiv };
}

impl PartialOrd for Name {
    ghost partial_cmp = { λ a b. Some (name_cmp a b) };

    ghost laws = { partial_order_from_agreeing_total name_cmp name_total (λ a b. refl) name_ties };

    fn partial_cmp(&self, other: &Name) -> Option<Ordering> {
        Some(self.cmp(other))
    }
}

impl Ord for Name {
    ghost cmp = { name_cmp };

    ghost total = { name_total };

    ghost matches_partial_cmp = { λ a b. refl };

    ghost matches_eq = { name_ties };

    fn cmp(&self, other: &Name) -> Ordering {
        self.as_slice().cmp(other.as_slice())
    }
}

impl Hash for Name {
    ghost hash_input = { λ name. fed.slice fed.u8 name };

    ghost respects_eq = { Prim.search (hashing, rules) };

    fn hash<H: Hasher>(&self, state: &mut H) {
        self.as_slice().hash(state);
    }
}
