//! Items of one sort, by name and in the order of making.
ghost use Rattle.std.specs.Prelude.{◌≡◌, ◌<◌, ◌≤◌, true, [], ◌∷◌, ◌++◌, false, IfOk, OnOk, OnErr, length, map, position, slice_get, option_copied, Some};
ghost use Rattle.std.specs.List.{IsDistinct, insert, remove};
ghost use Rattle.scene_model.specs.Names.{NameOf, same_name};
ghost use Rattle.scene_model.specs.Naming.{has_name, replaced};

use indexmap::IndexMap;
use std::alloc::Global;
use std::marker::Model;
use units::{Memory, Name};

/// What has a name of its own.
pub trait HasName: Sized {
    /// The name, as its bytes.
    ghost name_of: { Self → NameOf };

    /// The name.
    fn name(&self) -> Name
        ensures { result ≡ name_of self.now };

    /// An item equal to this one.
    fn copy(&self, alloc: Global) -> Result<Self, Memory>
        ensures { IfOk result (λ copy. copy ≡ self.now) };
}

/// Items in the order of making, found by name, each under its own. Contracts see the list of them.
pub struct NamedItems<T: HasName> {
    items: IndexMap<Name, T>,
}

impl<T: HasName> Model for NamedItems<T> {
    ghost use Rattle.std.specs.Prelude.{◌≡◌, List, map};
    ghost use Rattle.std.specs.Coded.{coded_list};
    ghost use Rattle.indexmap.specs.IndexMap.{keys, values};

    ghost Value = { List T };

    ghost coded = { coded_list T.code };

    ghost view = { λ a. values a.items };

    ghost invariant = { λ a. keys a.items ≡ map T.name_of (values a.items) };
}

// Written out: a derived drop is proved anew, field within field, at each exit of each owner.
impl<T: HasName + Drop> Drop for NamedItems<T> {
    fn drop(self) {
        let NamedItems { items } = self;
        drop(items);
    }
}

impl<T: HasName> NamedItems<T> {
    /// No item.
    pub fn new(alloc: Global) -> Self
        ensures { result ≡ [] }
    {
        NamedItems {
            items: IndexMap::new(alloc),
        }
    }

    /// How many items there are.
    pub fn len(&self) -> usize
        ensures { result ≡ length self.now }
    {
        self.items.len()
    }

    /// The number of the first item of this name: None exactly where no item has it.
    pub fn number_of(&self, name: &Name) -> Option<usize>
        ensures { result ≡ position (same_name name.now) (map T.name_of self.now) }
    {
        self.items.get_index_of(name)
    }

    /// Whether one of the items has this name.
    pub fn has(&self, name: &Name) -> bool
        ensures { result ≡ has_name T.name_of name.now self.now }
    {
        self.number_of(name).is_some()
    }

    /// The item of this number.
    pub fn at(&self, number: usize) -> Option<&T>
        ensures { option_copied result ≡ slice_get self.now number }
    {
        self.items.values().as_slice().get(number)
    }

    /// Adds an item of a new name at the end. After want of memory the items are as before.
    pub fn push(&mut self, item: T) -> Result<(), Memory>
    where
        T: Drop,
        requires free { has_name T.name_of (T.name_of item) self.old ≡ false }
        ensures added { OnOk result (self.new ≡ self.old ++ item ∷ []) }
        ensures unchanged { OnErr result (self.new ≡ self.old) }
    {
        self.items.insert(item.name(), item)?;
        Ok(())
    }

    /// Puts the item in the place of the one of its name, which is among the items: `number_of` tells. The names differ.
    pub fn set(&mut self, item: T)
    where
        T: Drop,
        requires stands { has_name T.name_of (T.name_of item) self.old ≡ true }
        requires distinct { IsDistinct same_name (map T.name_of self.old) }
        ensures { self.new ≡ replaced T.name_of item self.old }
    {
        let name = item.name();
        let number = self.number_of(&name).unwrap();
        self.items[number] = item;
    }

    /// Takes the item of this number out. Those behind it move up.
    pub fn take(&mut self, number: usize) -> Option<T>
    where
        T: Drop,
        ensures taken { result ≡ slice_get self.old number }
        ensures others { self.new ≡ remove self.old number }
    {
        let (_, item) = self.items.shift_remove_index(number)?;
        Some(item)
    }

    /// Puts an item of a new name in at this number, at most `len`: those from there on move down. After want of memory
    /// the items are as before.
    pub fn put_back(&mut self, number: usize, item: T) -> Result<(), Memory>
    where
        T: Drop,
        requires within { number ≤ length self.old }
        requires free { has_name T.name_of (T.name_of item) self.old ≡ false }
        ensures added { OnOk result (self.new ≡ insert self.old number item) }
        ensures unchanged { OnErr result (self.new ≡ self.old) }
    {
        self.items.shift_insert(number, item.name(), item)?;
        Ok(())
    }

    /// Items equal to these.
    pub fn copy(&self, alloc: Global) -> Result<Self, Memory>
    where
        T: Drop,
        ensures { IfOk result (λ copy. copy ≡ self.now) }
    {
        let mut copy = NamedItems::new(alloc);
        for number in 0..self.items.len() {
            let item = self.copy_of(number, alloc)?;
            copy.push(item)?;
        }
        Ok(copy)
    }

    fn copy_of(&self, number: usize, alloc: Global) -> Result<T, Memory>
        requires { number < length self.now }
        ensures { IfOk result (λ copy. slice_get self.now number ≡ Some copy) }
    {
        self.at(number).unwrap().copy(alloc)
    }
}
