//! A scene.
ghost use Rattle.std.specs.Prelude.{◌≡◌, ◌<◌, Some, IfOk, length, slice_get, is_some, position, IfSome, option_copied};
ghost use Rattle.scene_model.specs.Names.{same_name};
ghost use Rattle.scene_model.specs.Diagram.{empty_diagram, sort_names, all_sorts};
ghost use Rattle.scene_model.specs.Sound.{IsSound, IsShape, IsGuide, IsLink, IsCompound, IsGroup, IsPage};
ghost use Rattle.scene_model.specs.Items.{stands, count_of, item_among, item_named};

use crate::items::{Compound, Group, Guide, Item, Link, Page, Shape, Sort};
use crate::naming::NamedItems;
use std::alloc::Global;
use std::marker::Model;
use units::{Memory, Name};

/// The items of a diagram, each sort in the order of making. Its type keeps that it is sound: names differ, numbers lie
/// in their ranges, counts stay within the limits, and the names that items use stand as what is wanted. Contracts see it
/// as a diagram.
pub struct Scene {
    pub(crate) shapes: NamedItems<Shape>,
    pub(crate) guides: NamedItems<Guide>,
    pub(crate) links: NamedItems<Link>,
    pub(crate) compounds: NamedItems<Compound>,
    pub(crate) groups: NamedItems<Group>,
    /// At most one.
    pub(crate) pages: NamedItems<Page>,
}

impl Model for Scene {
    ghost use Rattle.scene_model.specs.Diagram.{Diagram};
    ghost use Rattle.scene_model.specs.Sound.{IsSound};

    ghost Value = { Diagram };

    ghost view = { λ a. record {
      shapes = a.shapes;
      guides = a.guides;
      links = a.links;
      compounds = a.compounds;
      groups = a.groups;
      pages = a.pages;
    } };

    ghost invariant = { λ a. IsSound (record {
      shapes = a.shapes;
      guides = a.guides;
      links = a.links;
      compounds = a.compounds;
      groups = a.groups;
      pages = a.pages;
    }) };
}

// Written out, as that of `NamedItems`.
impl Drop for Scene {
    fn drop(self) {
        let Scene {
            shapes,
            guides,
            links,
            compounds,
            groups,
            pages,
        } = self;
        drop(shapes);
        drop(guides);
        drop(links);
        drop(compounds);
        drop(groups);
        drop(pages);
    }
}

impl Scene {
    /// The scene without items.
    pub fn empty(alloc: Global) -> Scene
        ensures { result ≡ empty_diagram }
    {
        Scene {
            shapes: NamedItems::new(alloc),
            guides: NamedItems::new(alloc),
            links: NamedItems::new(alloc),
            compounds: NamedItems::new(alloc),
            groups: NamedItems::new(alloc),
            pages: NamedItems::new(alloc),
        }
    }

    /// The item of this name: None exactly where no item has it.
    pub fn lookup(&self, name: &Name) -> Option<Item>
        ensures value { result ≡ item_named self.now name.now }
        ensures found { is_some result ≡ stands self.now name.now }
    {
        self.first_named(name)
    }

    fn first_named(&self, name: &Name) -> Option<Item>
        ensures { result ≡ item_named self.now name.now }
    {
        let shape = self.item_among(Sort::Shape, name);
        let guide = self.item_among(Sort::Guide, name);
        let link = self.item_among(Sort::Link, name);
        let compound = self.item_among(Sort::Compound, name);
        let group = self.item_among(Sort::Group, name);
        let page = self.item_among(Sort::Page, name);
        shape.or(guide.or(link.or(compound.or(group.or(page)))))
    }

    fn item_among(&self, sort: Sort, name: &Name) -> Option<Item>
        ensures { result ≡ item_among self.now name.now sort }
    {
        let number = self.number_among(sort, name)?;
        Some(Item {
            sort,
            at: number as u16,
        })
    }

    fn number_among(&self, sort: Sort, name: &Name) -> Option<usize>
        ensures value { result ≡ position (same_name name.now) (sort_names self.now sort) }
        ensures sound { IsSound self.now }
    {
        match sort {
            Sort::Shape => self.shapes.number_of(name),
            Sort::Guide => self.guides.number_of(name),
            Sort::Link => self.links.number_of(name),
            Sort::Compound => self.compounds.number_of(name),
            Sort::Group => self.groups.number_of(name),
            Sort::Page => self.pages.number_of(name),
        }
    }

    /// How many items of the sort stand.
    pub fn count(&self, sort: Sort) -> u16
        ensures value { result ≡ count_of self.now sort }
        ensures sound { IsSound self.now }
    {
        match sort {
            Sort::Shape => self.shapes.len() as u16,
            Sort::Guide => self.guides.len() as u16,
            Sort::Link => self.links.len() as u16,
            Sort::Compound => self.compounds.len() as u16,
            Sort::Group => self.groups.len() as u16,
            Sort::Page => self.pages.len() as u16,
        }
    }

    /// The shape of this number, which is below `count` of shapes; `lookup` finds one of a name.
    pub fn shape(&self, at: u16) -> &Shape
        requires { at < length self.now.shapes }
        ensures value { slice_get self.now.shapes at ≡ Some result.now }
        ensures sound { IsShape result.now }
    {
        self.shapes.at(at as usize).unwrap()
    }

    /// The guideline of this number, which is below `count` of guidelines; `lookup` finds one of a name.
    pub fn guide(&self, at: u16) -> &Guide
        requires { at < length self.now.guides }
        ensures value { slice_get self.now.guides at ≡ Some result.now }
        ensures sound { IsGuide result.now }
    {
        self.guides.at(at as usize).unwrap()
    }

    /// The link of this number, which is below `count` of links; `lookup` finds one of a name.
    pub fn link(&self, at: u16) -> &Link
        requires { at < length self.now.links }
        ensures value { slice_get self.now.links at ≡ Some result.now }
        ensures sound { IsLink self.now.shapes self.now.guides result.now }
    {
        self.links.at(at as usize).unwrap()
    }

    /// The compound of this number, which is below `count` of compounds; `lookup` finds one of a name.
    pub fn compound(&self, at: u16) -> &Compound
        requires { at < length self.now.compounds }
        ensures value { slice_get self.now.compounds at ≡ Some result.now }
        ensures sound { IsCompound self.now.shapes self.now.guides result.now }
    {
        self.compounds.at(at as usize).unwrap()
    }

    /// The group of this number, which is below `count` of groups; `lookup` finds one of a name.
    pub fn group(&self, at: u16) -> &Group
        requires { at < length self.now.groups }
        ensures value { slice_get self.now.groups at ≡ Some result.now }
        ensures sound { IsGroup self.now.shapes self.now.guides result.now }
    {
        self.groups.at(at as usize).unwrap()
    }

    /// The page: None exactly where no page stands.
    pub fn page(&self) -> Option<&Page>
        ensures value { option_copied result ≡ slice_get self.now.pages 0 }
        ensures sound { IfSome result (λ page. IsPage page.now) }
    {
        self.pages.at(0)
    }

    /// A scene equal to this one.
    pub fn copy(&self, alloc: Global) -> Result<Scene, Memory>
        ensures { IfOk result (λ copy. copy ≡ self.now) }
    {
        Ok(Scene {
            shapes: self.shapes.copy(alloc)?,
            guides: self.guides.copy(alloc)?,
            links: self.links.copy(alloc)?,
            compounds: self.compounds.copy(alloc)?,
            groups: self.groups.copy(alloc)?,
            pages: self.pages.copy(alloc)?,
        })
    }
}
