// A list of at most `N` items that lies in the value itself. It is `Copy`, as `ArrayVec` is not, whose `clone` may lack memory.
#![tactic(auto, using(crate::proofs::Slots::in_slots))]

ghost use Rattle.std.specs.Prelude.{◌≡◌, ◌≤◌, length};

use std::alloc::AllocError;

// Of the slots the first `count` are items.
pub(crate) struct Bounded<T: Copy, const N: usize> {
    count: usize,
    pub(crate) slots: [T; N],
    ghost within: { (count ≤ N) × (length slots ≡ N) },
}

// By hand: a derive is refused over a ghost field of a generic struct.
impl<T: Copy, const N: usize> Copy for Bounded<T, N> {}

impl<T: Copy, const N: usize> Clone for Bounded<T, N> {
    fn clone(&self) -> Result<Bounded<T, N>, AllocError> {
        Ok(*self)
    }
}

impl<T: Copy, const N: usize> Bounded<T, N> {
    ghost use Rattle.std.specs.Prelude.{[], ◌∷◌, ◌++◌, cond, nat_lt, replicate, slice_set};
    ghost use Rattle.std.specs.List.{slice_get};
    ghost use Rattle.std.specs.Option.{option_copied};
    ghost use Rattle.instruments.specs.Items.{items_of};

    // So many times the same item, at most `N`.
    pub(crate) fn filled(item: T, count: usize) -> Bounded<T, N>
        requires { count ≤ N }
        ensures { items_of result ≡ replicate count item }
    {
        Bounded {
            count,
            slots: [item; N],
        }
    }

    pub(crate) fn len(&self) -> usize
        ensures value { result ≡ length (items_of self.now) }
        ensures bound { result ≤ N }
    {
        self.count
    }

    pub(crate) fn as_slice(&self) -> &[T]
        ensures { result.now ≡ items_of self.now }
    {
        &self.slots[..self.count]
    }

    pub(crate) fn get(&self, at: usize) -> Option<&T>
        ensures { option_copied result ≡ slice_get (items_of self.now) at }
    {
        self.as_slice().get(at)
    }

    // Adds an item behind the others, unless all slots are taken; answers whether it did, as the sets of the library do.
    pub(crate) fn push(&mut self, item: T) -> bool
        ensures value { result ≡ nat_lt (length (items_of self.old)) N }
        ensures after { items_of self.new ≡ cond result (items_of self.old ++ item ∷ []) (items_of self.old) }
    {
        if self.count == N {
            return false;
        }
        self.slots[self.count] = item;
        self.count += 1;
        true
    }

    // Puts an item in the place of another, if there is one.
    pub(crate) fn set(&mut self, at: usize, item: T) -> bool
        ensures value { result ≡ nat_lt at (length (items_of self.old)) }
        ensures after { items_of self.new ≡ slice_set (items_of self.old) at item }
    {
        let stands = at < self.count;
        if stands {
            self.slots[at] = item;
        }
        stands
    }
}
