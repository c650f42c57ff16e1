//! Laws of numbers and rows, each the contract of a function that does nothing.
ghost use Rattle.std.specs.Prelude.{◌≡◌, ◌≢◌, ◌↔◌, ◌<◌, ℤ, pos, negsuc, ◌+ℤ◌, ◌*ℤ◌, ◌^◌, ◌<ℤ◌, ◌≤ℤ◌, unsigned_abs, List, ◌∷◌, ◌++◌};
ghost use Rattle.std.specs.Cmp.{IsTotalOrder};
ghost use Rattle.std.specs.List.{Contains};
ghost use Rattle.std.specs.List.Sorted.{IsPermutation, IsSorted, IsStrictlySortedBy};
ghost use Rattle.std.specs.Ordering.{int_cmp};
ghost use Rattle.std.specs.declared.cmp.Ordering.TheVariants.{Less, Equal};
ghost use Rattle.river_base.specs.Bags.{SameBag};
ghost use Rattle.river_base.specs.Instants.{instants, stamps};
ghost use Rattle.river_base.specs.Number.{IsValue, HasQuotient, least_value, quot, rem, wrap};
ghost use Rattle.river_base.specs.Row.{row_cmp, copies, in_order};

/// Sums, differences and products are those of the integers, modulo 2^64.
#[tactic(auto, using(std::proofs::lemmas::Int::wraps, crate::proofs::NumberLemmas::wrap_modulo))]
pub fn arithmetic_is_modulo()
    ensures in_range { (z : ℤ) → IsValue (wrap z) }
    ensures modulo { (z : ℤ) → ((k : ℤ) × (z ≡ wrap z +ℤ k *ℤ pos (2 ^ 64))) }
{}

/// What is divided is the quotient by the divisor and the remainder, wherever the quotient is a value. The remainder is smaller
/// than the divisor, and never on the other side of 0 than what is divided. By 0 both are 0; the least value by -1 is itself.
pub fn division_is_exact()
    ensures whole { (a b : ℤ) → IsValue a → HasQuotient a b → a ≡ quot a b *ℤ b +ℤ rem a b }
    ensures size { (a b : ℤ) → b ≢ pos 0 → unsigned_abs (rem a b) < unsigned_abs b }
    ensures sign_from { (a b : ℤ) → pos 0 ≤ℤ a → pos 0 ≤ℤ rem a b }
    ensures sign_to { (a b : ℤ) → a ≤ℤ pos 0 → rem a b ≤ℤ pos 0 }
    ensures by_nought { (a : ℤ) → (quot a (pos 0) ≡ pos 0) × (rem a (pos 0) ≡ pos 0) }
    ensures least { (quot least_value (negsuc 0) ≡ least_value) × (rem least_value (negsuc 0) ≡ pos 0) }
{}

/// Rows are in a total order: by the first place where their values differ, and a proper prefix comes first.
pub fn rows_are_ordered()
    ensures total { IsTotalOrder row_cmp }
    ensures exact { (a b : List ℤ) → row_cmp a b ≡ Equal → a ≡ b }
    ensures first_difference { (p : List ℤ) (x y : ℤ) (a b : List ℤ) → x <ℤ y → row_cmp (p ++ x ∷ a) (p ++ y ∷ b) ≡ Less }
    ensures prefix_first { (a : List ℤ) (x : ℤ) (b : List ℤ) → row_cmp a (a ++ x ∷ b) ≡ Less }
{}

/// Lists of rows are one bag where each test passes as many of both, or where both have as many copies of each row, or where one is
/// the other in another order: these three are one.
pub fn bags_are_one_notion()
    ensures by_tests { (xs ys : List (List ℤ)) → SameBag xs ys ↔ IsPermutation xs ys }
    ensures by_copies { (xs ys : List (List ℤ)) → ((row : List ℤ) → copies row xs ≡ copies row ys) ↔ IsPermutation xs ys }
{}

/// Two ascending lists of rows that are the same bag are equal.
pub fn ascending_lists_are_unique()
    ensures { (xs ys : List (List ℤ)) → IsPermutation xs ys → IsSorted row_cmp xs → IsSorted row_cmp ys → xs ≡ ys }
{}

/// The rows in order are ascending, are the same bag, and are a function of the bag.
pub fn order_depends_on_bag()
    ensures ascends { (xs : List (List ℤ)) → IsSorted row_cmp (in_order xs) }
    ensures same_bag { (xs : List (List ℤ)) → IsPermutation xs (in_order xs) }
    ensures of_bag { (xs ys : List (List ℤ)) → IsPermutation xs ys → in_order xs ≡ in_order ys }
{}

/// The instants of files rise, and are just the timestamps of their rows.
pub fn instants_are_timestamps()
    ensures rise { (files : List (List (ℤ × List ℤ))) → IsStrictlySortedBy int_cmp (instants files) }
    ensures exact { (files : List (List (ℤ × List ℤ))) (t : ℤ) → Contains (instants files) t ↔ Contains (stamps files) t }
{}
