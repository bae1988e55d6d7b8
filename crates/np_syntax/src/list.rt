ghost use Rattle.std.specs.Prelude.{◌≡◌, [], ◌∷◌, ◌++◌, ◌<◌, length, take, drop, IfOk, IfErr, MatchOption, is_ok, if◌then◌else◌, slice_set};
ghost use Rattle.std.specs.Borrow.{Lends, Array, sem};
ghost use Rattle.np_syntax.specs.contracts.list.List.{the_row};

use super::memory::Memory;
use std::alloc::Global;
use std::marker::Model;

/// A `Vec` that contracts see as the list of its items. What it has reserved is no part of its value.
pub struct List<T> {
    items: Vec<T>,
}

impl<T: Drop> Drop for List<T> {
    fn drop(self) {
        let List { items: _ } = self;
    }
}

/// Bytes, mostly of a text.
pub type Text = List<u8>;

impl<T> Model for List<T> {
    ghost use Rattle.std.specs.Prelude.{List as Items};
    ghost use Rattle.std.specs.Coded.{coded_list};

    ghost Value = { Items T };

    ghost coded = { coded_list T.code };

    ghost view = { λ list. list.items.items };
}

impl<T> List<T> {
    /// The empty list, which takes no memory.
    pub fn new(alloc: Global) -> List<T>
        ensures { result ≡ [] }
    {
        List {
            items: Vec::new(alloc),
        }
    }

    /// Makes room for so many more items.
    pub fn reserve(&mut self, more: usize) -> Result<(), Memory>
        ensures { self.new ≡ self.old }
    {
        match self.items.reserve(more) {
            Ok(()) => Ok(()),
            Err(_) => Err(Memory),
        }
    }

    /// Appends an item, or hands it back and leaves the list as it was.
    pub fn push(&mut self, item: T) -> Result<(), (T, Memory)>
        ensures items { self.new ≡ (if is_ok result then self.old ++ item ∷ [] else self.old) }
        ensures returned { IfErr result (λ refused. refused.0 ≡ item) }
    {
        match self.items.push(item) {
            Ok(()) => Ok(()),
            Err(failed) => Err((failed.value, Memory)),
        }
    }

    /// Takes the last item.
    pub fn pop(&mut self) -> Option<T>
        ensures { MatchOption result ((self.old ≡ []) × (self.new ≡ [])) (λ last. self.old ≡ self.new ++ last ∷ []) }
    {
        self.items.pop()
    }

    pub fn len(&self) -> usize
        ensures { result ≡ length self.now }
    {
        self.items.len()
    }

    pub fn as_slice(&self) -> &[T]
        ensures { result.now ≡ self.now }
    {
        self.items.as_slice()
    }

    /// The items, to be written in their places.
    pub fn as_mut_slice(&mut self) -> &mut [T]
        ensures* writes_back { sem 𝓛 (Lends (the_row T.row) (Array T.row 0) self.entry result
            (λ written. take (length self.old) (written ++ drop (length written) self.old))) }
        ensures value { result.now ≡ self.old }
    {
        self.items.as_mut_slice()
    }
}

impl<T: Drop> List<T> {
    /// `push`, where the item is given up for want of memory.
    pub fn add(&mut self, item: T) -> Result<(), Memory>
        ensures { self.new ≡ (if is_ok result then self.old ++ item ∷ [] else self.old) }
    {
        match self.push(item) {
            Ok(()) => Ok(()),
            Err((_, memory)) => Err(memory),
        }
    }

    /// Puts an item in the place of one that is given up.
    pub fn set(&mut self, at: usize, item: T)
        requires { at < length self.old }
        ensures { self.new ≡ slice_set self.old at item }
    {
        self.items[at] = item;
    }
}

impl<T: Copy> List<T> {
    /// Appends copies of the items.
    pub fn append(&mut self, items: &[T]) -> Result<(), Memory>
        ensures { self.new ≡ (if is_ok result then self.old ++ items.now else self.old) }
    {
        match self.items.extend_from_slice(items) {
            Ok(()) => Ok(()),
            Err(_) => Err(Memory),
        }
    }

    /// A list of copies of the items.
    pub fn from_slice(alloc: Global, items: &[T]) -> Result<List<T>, Memory>
        ensures { IfOk result (λ list. list ≡ items.now) }
    {
        match Vec::from_slice(alloc, items) {
            Ok(items) => Ok(List { items }),
            Err(_) => Err(Memory),
        }
    }

    pub fn copy(&self, alloc: Global) -> Result<List<T>, Memory>
        ensures { IfOk result (λ copied. copied ≡ self.now) }
    {
        List::from_slice(alloc, self.as_slice())
    }
}

/// A copy of each text.
pub fn copy_texts(alloc: Global, texts: &[Text]) -> Result<List<Text>, Memory>
    ensures { IfOk result (λ copied. copied ≡ texts.now) }
{
    let mut copies = List::new(alloc);
    for text in texts {
        copies.add(text.copy(alloc)?)?;
    }
    Ok(copies)
}
