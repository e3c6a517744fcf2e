//! A list whose contracts see its items and how many more it takes without asking for memory.
ghost use Rattle.std.specs.Prelude.{◌≡◌, ◌+◌, ◌<◌, ◌≤◌, ◌++◌, ◌∷◌, [], length, ◌==◌, IfOk, IsOk, OnOk, OnErr};

use crate::faults::OutOfMemory;
use std::alloc::Global;
use std::marker::Model;

/// Items in order, over std's `Vec`. Contracts see `items`, and `spare`: how many more items fit without memory.
#[derive(Debug, Drop)]
pub struct List<T> {
    inner: Vec<T>,
}

impl<T> Model for List<T> {
    ghost use Rattle.std.specs.Prelude.{◌-◌, vec_len, vec_capacity};
    ghost use Rattle.plat_base.specs.Roomy.{Roomy, roomy_code};

    ghost Value = { Roomy T };

    ghost coded = { roomy_code T.code };

    ghost view = { λ it. record { items = it.inner.items; spare = vec_capacity it.inner - vec_len it.inner } };
}

impl<T> List<T> {
    /// An empty list that holds no memory.
    pub fn new(alloc: Global) -> List<T>
        ensures { result.items ≡ [] }
    {
        List {
            inner: Vec::new(alloc),
        }
    }

    /// An empty list with room for at least `n` items.
    pub fn with_room(alloc: Global, n: usize) -> Result<List<T>, OutOfMemory>
        ensures empty { IfOk result (λ list. list.items ≡ []) }
        ensures room { IfOk result (λ list. n ≤ list.spare) }
        ensures succeeds { n ≡ 0 → IsOk result }
    {
        match Vec::with_capacity(alloc, n) {
            Ok(inner) => Ok(List { inner }),
            Err(_) => Err(OutOfMemory),
        }
    }

    /// Makes room for at least `n` more items. Where there is room already, it cannot fail. The list keeps its own
    /// allocator.
    pub fn reserve(&mut self, n: usize) -> Result<(), OutOfMemory>
        ensures items { self.new.items ≡ self.old.items }
        ensures room { OnOk result (n ≤ self.new.spare) }
        ensures kept { self.old.spare ≤ self.new.spare }
        ensures same { OnErr result (self.new.spare ≡ self.old.spare) }
        ensures succeeds { n ≤ self.old.spare → IsOk result }
    {
        match self.inner.reserve(n) {
            Ok(()) => Ok(()),
            Err(_) => Err(OutOfMemory),
        }
    }

    /// Adds `item` at the end. It takes no memory.
    pub fn push(&mut self, item: T)
        requires { 0 < self.old.spare }
        ensures items { self.new.items ≡ self.old.items ++ item ∷ [] }
        ensures spare { self.new.spare + 1 ≡ self.old.spare }
    {
        self.inner.push_reserved(item);
    }

    /// The items, as a slice.
    pub fn as_slice(&self) -> &[T]
        ensures { result.now ≡ self.now.items }
    {
        self.inner.as_slice()
    }

    /// The number of items.
    pub fn len(&self) -> usize
        ensures { result ≡ length self.now.items }
    {
        self.inner.as_slice().len()
    }

    /// Whether there is no item.
    pub fn is_empty(&self) -> bool
        ensures { result ≡ (length self.now.items == 0) }
    {
        self.inner.as_slice().is_empty()
    }
}
