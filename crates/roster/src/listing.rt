// What is listed, in order and with fixed room, in the value itself.
ghost use Rattle.std.specs.Prelude.{◌≡◌, ◌^◌, ◌<◌, ◌≤◌, ◌==◌, [], ◌∷◌, ◌++◌, length};
ghost use Rattle.std.specs.Cmp.{on_equiv, on_per};
ghost use Rattle.std.specs.Cmp.Lexicographic.{pointwise, lists_per, lists_equiv};
ghost use Rattle.std.specs.Iterator.Runs.{EveryRun, ItemsMapTo};
ghost use Rattle.std.specs.Slice.Iter.{iter_rest, iter_steps};

use std::alloc::AllocError;
use std::marker::Model;
use std::ops::DerefSlice;
use std::{fmt, slice};

// A type with a value that fills the places where nothing is listed.
pub trait Blank: Copy {
    ghost blank: { Self };

    fn blank() -> Self
        ensures { result ≡ blank };
}

// Like an ArrayVec, but a Copy type. The places behind what is listed hold blanks,
// so that what is listed gives all places back, which a Copy type has to do.
pub struct Listing<T: Blank, const N: usize> {
    places: [T; N],
    count: usize,
}

impl<T: Blank, const N: usize> Model for Listing<T, N> {
    ghost use Rattle.std.specs.Prelude.{◌≡◌, ◌-◌, ◌≤◌, ◌++◌, length, take, drop, replicate};
    ghost use Rattle.std.proofs.Common.{arith, length-take-le};
    ghost use Rattle.roster.specs.Listings.{Items, items_code, filled_up};

    ghost Value = { Items T };

    ghost coded = { items_code T.code };

    ghost view = { λ l. record { items = take l.count l.places } };

    ghost invariant = { λ l. (l.count ≤ N) × (length l.places ≡ N) × (drop l.count l.places ≡ replicate (N - l.count) T.blank) };

    ghost inverse = { λ v. record { places = v.items ++ replicate (N - length v.items) T.blank; count = length v.items } };

    ghost inverse_ok = { λ l h i. record {
      places = filled_up l.places l.count N T.blank h.0 h.1 h.2 i;
      count = length-take-le l.count l.places (omega (arith, h.0, h.1)) i;
    } };
}

impl<T: Blank, const N: usize> Listing<T, N> {
    // One that lists nothing.
    pub fn new() -> Self
        ensures { result.items ≡ [] }
    {
        Listing {
            places: [T::blank(); N],
            count: 0,
        }
    }

    // How many are listed.
    #[inline]
    pub fn len(&self) -> usize
        ensures value { result ≡ length self.now.items }
        ensures fits { result ≤ N }
    {
        self.as_slice().len()
    }

    // Whether there is no room left.
    #[inline]
    pub fn is_full(&self) -> bool
        ensures value { result ≡ (length self.now.items == N) }
        ensures fits { length self.now.items ≤ N }
    {
        self.count == N
    }

    // What is listed.
    #[inline]
    pub fn as_slice(&self) -> &[T]
        ensures value { result.now ≡ self.now.items }
        ensures fits { length result.now ≤ N }
    {
        &self.places[..self.count]
    }

    // Lists one more, at the end. There must be room.
    #[inline]
    pub(crate) fn push(&mut self, item: T)
        requires { length self.old.items < N }
        ensures { self.new.items ≡ self.old.items ++ item ∷ [] }
    {
        let count = self.count;
        self.places[count] = item;
        self.count = count + 1;
    }
}

impl<T: Blank, const N: usize> DerefSlice for Listing<T, N> {
    type Elem = T;

    ghost deref_gives = { λ l xs. (xs ≡ l.items) × (length xs ≤ N) };

    #[inline]
    fn deref(&self) -> &[T] {
        self.as_slice()
    }
}

impl<'a, T: Blank, const N: usize> IntoIterator for &'a Listing<T, N> {
    type Item = &'a T;

    type IntoIter = slice::Iter<'a, T>;

    ghost into_iter_gives = { λ l it. (iter_rest it ≡ l.now.items) × (length (iter_rest it) < 2 ^ 64)
        × EveryRun (iter_steps {A = T}) (λ p. ItemsMapTo p (λ x. x.now) (iter_rest p.from)) };

    fn into_iter(self) -> slice::Iter<'a, T> {
        self.as_slice().iter()
    }
}

impl<T: Blank, const N: usize> Clone for Listing<T, N> {
    ghost is_clone = { λ l m. m ≡ l };

    ghost is_infallible = { λ _. Unit {0} };

    fn clone(&self) -> Result<Self, AllocError> {
        Ok(*self)
    }
}

impl<T: Blank, const N: usize> Copy for Listing<T, N> {}

// Two are equal by what they list; the blanks need no look.
impl<T: Blank + PartialEq, const N: usize> PartialEq for Listing<T, N> {
    ghost eq = { λ l m. pointwise T.eq l.items m.items };

    ghost laws = { on_per (λ l. l.items) (lists_per T.PartialEq.laws) };

    fn eq(&self, other: &Self) -> bool {
        self.as_slice() == other.as_slice()
    }
}

impl<T: Blank + Eq, const N: usize> Eq for Listing<T, N> {
    ghost laws = { on_equiv (λ l. l.items) (lists_equiv T.Eq.laws) };
}

impl<T: Blank + fmt::Debug, const N: usize> fmt::Debug for Listing<T, N> {
    fn fmt<W: fmt::Write>(&self, f: &mut fmt::Formatter<W>) -> fmt::Result {
        f.debug_list().entries(self.as_slice()).finish()
    }
}
