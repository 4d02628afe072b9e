//! Changes of a scene.
ghost use Rattle.std.specs.Prelude.{◌≡◌, ◌<◌, ◌≤◌, true, false, Some, IsSome, OnOk, OnErr};
ghost use Rattle.scene_model.specs.Sound.{IsSound};
ghost use Rattle.scene_model.specs.Items.{stands, count_of, item_named, name_of_thing, sort_of, sort_named, thing_at, with_thing, with_replaced, without_at, without, with_thing_at, IsThing, HasRoomFor};

use crate::items::{Item, Sort, Thing};
use crate::scene::Scene;
use units::{Memory, Name};

impl Scene {
    /// Adds an item, the last of its sort. Its name is new, which `lookup` tells; its numbers lie in their ranges, and
    /// the names that it uses stand as what is wanted (`stands_as`) and differ; and there is room, which `count` tells:
    /// fewer than 128 shapes, 64 guidelines, 256 links, 128 compounds, 32 groups or 1 page stand. After want of memory
    /// the scene is as before.
    pub fn add(&mut self, thing: Thing) -> Result<(), Memory>
        requires free { stands self.old (name_of_thing thing) ≡ false }
        requires sound { IsThing self.old thing }
        requires room { HasRoomFor self.old thing }
        ensures added { OnOk result (self.new ≡ with_thing self.old thing) }
        ensures unchanged { OnErr result (self.new ≡ self.old) }
    {
        let at = self.count(thing.sort());
        self.insert(at, thing)?;
        Ok(())
    }

    /// Puts the item in the place of the one of its name, which stands as the same sort: `lookup` tells. The scene is
    /// sound afterwards.
    pub fn set(&mut self, thing: Thing)
        requires stands { sort_named self.old (name_of_thing thing) ≡ Some (sort_of thing) }
        requires sound { IsSound (with_replaced self.old thing) }
        ensures { self.new ≡ with_replaced self.old thing }
    {
        match thing {
            Thing::Shape(shape) => self.shapes.set(shape),
            Thing::Guide(guide) => self.guides.set(guide),
            Thing::Link(link) => self.links.set(link),
            Thing::Compound(compound) => self.compounds.set(compound),
            Thing::Group(group) => self.groups.set(group),
            Thing::Page(page) => self.pages.set(page),
        }
    }

    /// Takes the item of this name out, which stands: `lookup` tells. It gives its number among those of its sort, and
    /// the item; those behind it in its list move up. `put_back` of both gives the scene as it was. The scene is sound
    /// afterwards: no item uses a shape or guideline that is taken out, which `user_of` tells.
    pub fn take(&mut self, name: &Name) -> (u16, Thing)
        requires stands { stands self.old name.now ≡ true }
        requires sound { IsSound (without self.old name.now) }
        ensures number { item_named self.old name.now ≡ Some (record { sort = sort_of result.1; at = result.0 }) }
        ensures taken { thing_at self.old (sort_of result.1) result.0 ≡ Some result.1 }
        ensures named { name_of_thing result.1 ≡ name.now }
        ensures others { self.new ≡ without self.old name.now }
        ensures free { stands self.new name.now ≡ false }
        ensures back { with_thing_at self.new result.0 result.1 ≡ self.old }
    {
        let item = self.lookup(name).unwrap();
        // Asked for what its type keeps, which the proof needs.
        let _count = self.count(item.sort);
        let thing = self.take_at(item);
        (item.at, thing)
    }

    fn take_at(&mut self, item: Item) -> Thing
        requires stands { IsSome (thing_at self.old item.sort item.at) }
        requires sound { IsSound (without_at self.old item.sort item.at) }
        ensures sort { sort_of result ≡ item.sort }
        ensures taken { thing_at self.old item.sort item.at ≡ Some result }
        ensures others { self.new ≡ without_at self.old item.sort item.at }
    {
        let number = item.at as usize;
        match item.sort {
            Sort::Shape => Thing::Shape(self.shapes.take(number).unwrap()),
            Sort::Guide => Thing::Guide(self.guides.take(number).unwrap()),
            Sort::Link => Thing::Link(self.links.take(number).unwrap()),
            Sort::Compound => Thing::Compound(self.compounds.take(number).unwrap()),
            Sort::Group => Thing::Group(self.groups.take(number).unwrap()),
            Sort::Page => Thing::Page(self.pages.take(number).unwrap()),
        }
    }

    /// Puts an item back at this number among those of its sort, which is at most `count`; those from there on move
    /// down. Its name is new, which `lookup` tells, and the scene is sound afterwards. `take` of its name gives the
    /// scene as it was. After want of memory the scene is as before.
    pub fn put_back(&mut self, at: u16, thing: Thing) -> Result<(), Memory>
        requires within { at ≤ count_of self.old (sort_of thing) }
        requires free { stands self.old (name_of_thing thing) ≡ false }
        requires sound { IsSound (with_thing_at self.old at thing) }
        ensures added { OnOk result (self.new ≡ with_thing_at self.old at thing) }
        ensures back { OnOk result (without self.new (name_of_thing thing) ≡ self.old) }
        ensures unchanged { OnErr result (self.new ≡ self.old) }
    {
        self.insert(at, thing)?;
        Ok(())
    }

    fn insert(&mut self, at: u16, thing: Thing) -> Result<(), Memory>
        requires within { at ≤ count_of self.old (sort_of thing) }
        requires free { stands self.old (name_of_thing thing) ≡ false }
        requires sound { IsSound (with_thing_at self.old at thing) }
        ensures added { OnOk result (self.new ≡ with_thing_at self.old at thing) }
        ensures unchanged { OnErr result (self.new ≡ self.old) }
    {
        let number = at as usize;
        match thing {
            Thing::Shape(shape) => self.shapes.put_back(number, shape),
            Thing::Guide(guide) => self.guides.put_back(number, guide),
            Thing::Link(link) => self.links.put_back(number, link),
            Thing::Compound(compound) => self.compounds.put_back(number, compound),
            Thing::Group(group) => self.groups.put_back(number, group),
            Thing::Page(page) => self.pages.put_back(number, page),
        }?;
        Ok(())
    }
}
