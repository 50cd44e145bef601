//! Entries of one type in memory of fixed size.

ghost use Rattle.std.specs.Prelude.{◌≡◌, ◌<◌, ◌≤◌, ◌+◌, length};

use std::alloc::AllocError;

// Entries, `count` of them, in room for N.
#[derive(Copy)]
pub struct Table<T, const N: usize> {
    pub items: [T; N],
    pub count: usize,
    pub ghost few: { count ≤ N },
    pub ghost long: { length items ≡ N },
}

// By hand: `Clone` is not derived over the ghost fields of a generic struct.
impl<T: Copy, const N: usize> Clone for Table<T, N> {
    fn clone(&self) -> Result<Self, AllocError> {
        Ok(*self)
    }
}

impl<T: Copy, const N: usize> Table<T, N> {
    ghost use Rattle.std.specs.Prelude.{◌≡◌, ◌<◌, ◌≤◌, ◌+◌, ℕ, replicate, set};
    ghost use Rattle.tables.specs.Entries.{entries, Removed};

    // No entries; x stands in the room for them.
    pub fn empty(x: T) -> Self
        ensures items { result.items ≡ replicate N x }
        ensures count { result.count ≡ 0 }
    {
        Table {
            items: [x; N],
            count: 0,
        }
    }

    // The entries.
    pub fn as_slice(&self) -> &[T]
        ensures { result.now ≡ entries self.now }
    {
        &self.items[..self.count]
    }

    // One more behind them.
    pub fn push(&mut self, x: T)
        requires { self.old.count < N }
        ensures items { self.new.items ≡ set self.old.items self.old.count x }
        ensures count { self.new.count ≡ self.old.count + 1 }
    {
        self.items[self.count] = x;
        self.count += 1;
    }

    // Another in place of entry k.
    pub fn replace(&mut self, k: usize, x: T)
        requires { k < self.old.count }
        ensures items { self.new.items ≡ set self.old.items k x }
        ensures count { self.new.count ≡ self.old.count }
    {
        self.items[k] = x;
    }

    // Entry k taken out: those behind it move up.
    pub fn remove(&mut self, k: usize)
        requires { k < self.old.count }
        ensures { Removed k self.old self.new }
    {
        let last = self.count - 1;
        for i in k..last {
            self.items[i] = self.items[i + 1];
        }
        self.count = last;
    }

    // The first n of them alone.
    pub fn truncate(&mut self, n: usize)
        requires { n ≤ self.old.count }
        ensures items { self.new.items ≡ self.old.items }
        ensures count { self.new.count ≡ n }
    {
        self.count = n;
    }
}
