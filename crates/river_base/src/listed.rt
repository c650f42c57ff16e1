// Lists.
ghost use Rattle.std.specs.Prelude.{◌≡◌, ◌<◌, ◌≤◌, ◌^◌, List, [], ◌∷◌, ◌++◌, length, take, replicate, IfOk, OnOk, OnErr, MatchOption, slice_index_or, IsTrue, ◌↔◌};
ghost use Rattle.std.specs.Borrow.{sem};
ghost use Rattle.std.specs.Slice.Iter.{iter_rest};
ghost use Rattle.std.specs.Iterator.Adapters.{IterYieldsInOrder, IterYieldsInReverse};
ghost use Rattle.std.specs.Cmp.Lexicographic.{pointwise, lists_per};
ghost use Rattle.std.specs.Hash as fed;
ghost use Rattle.std.specs.Hash.{items_Alike};
ghost use Rattle.std.specs.List.Sorted.{IsPermutation, IsSorted};
ghost use Rattle.std.proofs.lemmas.Cmp.{lists_equiv};
ghost use Rattle.river_base.specs.Row.{row_cmp, in_order};
ghost use Rattle.river_base.specs.Instants.{each_once};

use crate::{NoMemory, Row};
use itoa::{Buffer, Integer};
use std::alloc::Global;
use std::hash::{Hash, Hasher};
use std::marker::Model;
use std::slice;

/// A list, which contracts see as the list of its elements.
#[derive(Drop)]
pub struct Listed<T> {
    items: Vec<T>,
}

/// A list of bytes.
pub type Bytes = Listed<u8>;

/// A list of values.
pub type Numbers = Listed<i64>;

/// A word of the command line.
pub type Text = Bytes;

impl<T> Model for Listed<T> {
    ghost use Rattle.std.specs.Prelude.{List};
    ghost use Rattle.std.specs.Coded.{coded_list};

    ghost Value = { List T };

    ghost coded = { coded_list T.code };

    ghost view = { λ a. a.items.items };
}

impl<T> Listed<T> {
    ghost use Rattle.river_base.specs.Listed.{LendsElement, LendsAll};

    /// The empty list.
    pub fn new(alloc: Global) -> Self
        ensures { result ≡ [] }
    {
        Listed {
            items: Vec::new(alloc),
        }
    }

    /// The empty list, with memory for so many elements.
    pub fn with_room(alloc: Global, count: usize) -> Result<Self, NoMemory>
        ensures { IfOk result (λ list. list ≡ []) }
    {
        Ok(Listed {
            items: Vec::with_capacity(alloc, count)?,
        })
    }

    /// How many elements there are.
    pub fn len(&self) -> usize
        ensures { result ≡ length self.now }
    {
        self.items.len()
    }

    /// Whether there is no element.
    pub fn is_empty(&self) -> bool
        ensures { IsTrue result ↔ (self.now ≡ []) }
    {
        self.items.is_empty()
    }

    /// The element at a place, from 0.
    pub fn at(&self, i: usize) -> &T
        requires { i < length self.now }
        ensures { (d : T) → result.now ≡ slice_index_or self.now i d }
    {
        &self.items[i]
    }

    /// The element at a place, from 0, to be changed.
    pub fn at_mut(&mut self, i: usize) -> &mut T
        requires { i < length self.old }
        ensures* writes_back { sem 𝓛 (LendsElement T.row self.entry i result) }
        ensures value { (d : T) → result.now ≡ slice_index_or self.old i d }
    {
        &mut self.items[i]
    }

    /// Takes the last element out; None where there is none.
    pub fn pop(&mut self) -> Option<T>
        ensures { MatchOption result ((self.old ≡ []) × (self.new ≡ [])) (λ x. self.old ≡ self.new ++ x ∷ []) }
    {
        self.items.pop()
    }

    /// The elements.
    pub fn as_slice(&self) -> &[T]
        ensures { result.now ≡ self.now }
    {
        self.items.as_slice()
    }

    /// Goes over the elements in order.
    pub fn iter(&self) -> slice::Iter<'_, T>
        ensures rest { iter_rest result ≡ self.now }
        ensures len { length (iter_rest result) ≡ length self.now }
        ensures bound { length (iter_rest result) < 2 ^ 64 }
        ensures runs { IterYieldsInOrder T }
        ensures runs_back { IterYieldsInReverse T }
    {
        self.items.iter()
    }

    /// The elements, to be changed in place.
    pub fn as_mut_slice(&mut self) -> &mut [T]
        ensures* writes_back { sem 𝓛 (LendsAll T.row self.entry result) }
        ensures value { result.now ≡ self.old }
    {
        self.items.as_mut_slice()
    }

    /// The elements as a vector; takes no memory.
    pub fn into_vec(self) -> Vec<T>
        ensures { result.items ≡ self }
    {
        self.items
    }
}

// What may let an element go. The rest asks for less, so that who only reads a list need not be able to drop its elements.
impl<T: Drop> Listed<T> {
    /// The list of one element.
    pub fn one(alloc: Global, x: T) -> Result<Self, NoMemory>
        ensures { IfOk result (λ list. list ≡ x ∷ []) }
    {
        let mut list = Listed::new(alloc);
        list.push(x)?;
        Ok(list)
    }

    /// Appends an element; changes nothing where there is no memory.
    pub fn push(&mut self, x: T) -> Result<(), NoMemory>
        ensures ok { OnOk result (self.new ≡ self.old ++ x ∷ []) }
        ensures err { OnErr result (self.new ≡ self.old) }
    {
        self.items.push(x)?;
        Ok(())
    }

    /// Keeps the first elements, at most `len`.
    pub fn truncate(&mut self, len: usize)
        ensures { self.new ≡ take len self.old }
    {
        self.items.truncate(len);
    }

    /// Moves the elements of another list behind these; changes nothing where there is no memory.
    pub fn append(&mut self, more: Listed<T>) -> Result<(), NoMemory>
        ensures ok { OnOk result (self.new ≡ self.old ++ more) }
        ensures err { OnErr result (self.new ≡ self.old) }
    {
        let mut more = more.items;
        self.items.append(&mut more)?;
        Ok(())
    }
}

impl<T: Drop> Listed<Listed<T>> {
    ghost use Rattle.river_base.specs.Places.{append_at};

    /// So many empty lists.
    pub fn blanks(alloc: Global, count: usize) -> Result<Self, NoMemory>
        ensures { IfOk result (λ all. all ≡ replicate count []) }
    {
        let mut all = Listed::new(alloc);
        for _i in 0..count {
            all.push(Listed::new(alloc))?;
        }
        Ok(all)
    }

    /// Appends an element to the list at a place, from 0; changes nothing where there is no memory.
    pub fn push_at(&mut self, place: usize, x: T) -> Result<(), NoMemory>
        requires { place < length self.old }
        ensures ok { OnOk result (self.new ≡ append_at self.old place (x ∷ [])) }
        ensures err { OnErr result (self.new ≡ self.old) }
    {
        let inner = &mut self.items[place];
        inner.push(x)?;
        Ok(())
    }

    /// Moves the elements of a list behind those of the list at a place, from 0; changes nothing where there is no memory.
    pub fn extend_at(&mut self, place: usize, more: Listed<T>) -> Result<(), NoMemory>
        requires { place < length self.old }
        ensures ok { OnOk result (self.new ≡ append_at self.old place more) }
        ensures err { OnErr result (self.new ≡ self.old) }
    {
        let inner = &mut self.items[place];
        inner.append(more)?;
        Ok(())
    }
}

impl Listed<u8> {
    /// A copy of these bytes.
    pub fn from_slice(alloc: Global, bytes: &[u8]) -> Result<Self, NoMemory>
        ensures { IfOk result (λ copy. copy ≡ bytes.now) }
    {
        let items = Vec::from_slice(alloc, bytes)?;
        Ok(Listed { items })
    }

    /// Appends these bytes; changes nothing where there is no memory.
    pub fn extend(&mut self, bytes: &[u8]) -> Result<(), NoMemory>
        ensures ok { OnOk result (self.new ≡ self.old ++ bytes.now) }
        ensures err { OnErr result (self.new ≡ self.old) }
    {
        self.items.extend_from_slice(bytes)?;
        Ok(())
    }

    /// Appends a number in decimal digits, with its sign where it is below 0.
    pub fn put_number<I: Integer>(&mut self, number: I) -> Result<(), NoMemory>
        ensures { OnOk result (self.new ≡ self.old ++ I.text number) }
    {
        let mut digits = Buffer::new();
        self.extend(digits.format(number).as_bytes())
    }
}

impl Listed<i64> {
    /// Puts the values in ascending order, each once.
    pub fn keep_each_once(&mut self)
        ensures { self.new ≡ each_once self.old }
    {
        self.items.sort_unstable();
        self.items.dedup();
    }
}

impl Listed<Row> {
    /// Puts the rows in ascending order; changes nothing where there is no memory.
    #[tactic(auto, using(crate::proofs::Rows::in_order_from_sort))]
    pub fn sort(&mut self) -> Result<(), NoMemory>
        ensures same_bag { IsPermutation self.old self.new }
        ensures ok { OnOk result (self.new ≡ in_order self.old) }
        ensures ascending { OnOk result (IsSorted row_cmp self.new) }
        ensures err { OnErr result (self.new ≡ self.old) }
    {
        self.items.sort()?;
        Ok(())
    }
}

impl<T: PartialEq> PartialEq for Listed<T> {
    ghost eq = { pointwise T.eq };

    ghost laws = { lists_per T.laws };

    fn eq(&self, other: &Listed<T>) -> bool {
        self.items == other.items
    }
}

impl<T: Eq> Eq for Listed<T> {
    ghost laws = { lists_equiv T.Eq.laws };
}

impl<T: Hash> Hash for Listed<T> {
    ghost hash_input = { λ list. fed.slice T.hash_input list };

    ghost respects_eq = { (items_Alike (record { fed = T.respects_eq })).fed };

    fn hash<H: Hasher>(&self, state: &mut H) {
        self.items.hash(state);
    }
}
