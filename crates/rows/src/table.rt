// A table of rows, and its calls.
ghost use Rattle.std.specs.Prelude.{◌≡◌, ◌+◌, ◌≤◌, [], length, IfOk, slice_get, slice_set};
ghost use Rattle.rows.specs.Places.{fits, next_place, with_row, with_rows, Pushed};

use std::alloc::{AllocError, Global};
use std::marker::Model;
use std::ops::DerefSlice;

// A table of at most N rows. Its memory is reserved when it is made, so that no later call allocates.
#[derive(Drop)]
pub struct Rows<T, const N: usize> {
    rows: Vec<T>,
}

impl<T, const N: usize> Model for Rows<T, N> {
    ghost use Rattle.std.specs.Prelude.{◌≤◌, vec_len, vec_capacity};
    ghost use Rattle.rows.specs.Rows.{Rows as Items, rows_code};

    ghost Value = { Items T };

    ghost coded = { rows_code T.code };

    ghost view = { λ t. record { items = t.rows.items } };

    ghost invariant = { λ t. (N ≤ vec_capacity t.rows) × (vec_len t.rows ≤ N) };
}

impl<T, const N: usize> Rows<T, N> {
    // A table with no row, and room for N.
    pub fn new(heap: Global) -> Result<Rows<T, N>, AllocError>
        ensures { IfOk result (λ t. t.items ≡ []) }
    {
        let rows = Vec::with_capacity(heap, N)?;
        Ok(Rows { rows })
    }

    // The rows, in their order.
    pub fn as_slice(&self) -> &[T]
        ensures value { result.now ≡ self.now.items }
        ensures few { length self.now.items ≤ N }
    {
        self.rows.as_slice()
    }

    // How many rows there are.
    pub fn len(&self) -> usize
        ensures value { result ≡ length self.now.items }
        ensures few { length self.now.items ≤ N }
    {
        self.rows.len()
    }

    // Adds a row behind the others, and answers its place; a full table stays as it was.
    pub fn push(&mut self, row: T) -> Option<usize>
    where
        T: Drop,
        ensures value { result ≡ next_place N self.old.items }
        ensures items { self.new.items ≡ with_row N self.old.items row }
        ensures cases { Pushed N self.old.items row result self.new.items }
    {
        let place = self.rows.len();
        if place >= N {
            return None;
        }
        self.rows.push_reserved(row);
        Some(place)
    }

    // Drops every row.
    pub fn clear(&mut self)
    where
        T: Drop,
        ensures { self.new.items ≡ [] }
    {
        self.rows.clear();
    }
}

impl<T: Copy, const N: usize> Rows<T, N> {
    // The row at a place, if there is one.
    pub fn get(&self, place: usize) -> Option<T>
        ensures { result ≡ slice_get self.now.items place }
    {
        self.rows.get(place).copied()
    }

    // Writes a row into its place; nothing where there is no such place.
    pub fn set(&mut self, place: usize, row: T)
        ensures { self.new.items ≡ slice_set self.old.items place row }
    {
        if place < self.rows.len() {
            self.rows[place] = row;
        }
    }

    // Copies rows in the place of what was there, and answers whether they fit; a table in which they do not stays as it was.
    pub fn replace(&mut self, rows: &[T]) -> bool
        ensures value { result ≡ fits N (length rows.now) }
        ensures items { self.new.items ≡ with_rows N self.old.items rows.now }
        ensures copied { length rows.now ≤ N → self.new.items ≡ rows.now }
    {
        if rows.len() > N {
            return false;
        }
        self.clear();
        for row in rows {
            self.rows.push_reserved(*row);
        }
        true
    }
}

// A table is read as the slice of its rows.
impl<T, const N: usize> DerefSlice for Rows<T, N> {
    type Elem = T;

    ghost deref_gives = { λ t xs. (xs ≡ t.items) × (length xs ≤ N) };

    fn deref(&self) -> &[T] {
        self.as_slice()
    }
}
