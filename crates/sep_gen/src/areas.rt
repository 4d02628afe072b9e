//! The separations of groups and of the page.
ghost use Rattle.std.specs.Prelude.{◌≡◌, ◌≤◌, ◌≤ℤ◌, ◌++◌, ◌∷◌, [], pos, OnOk};
ghost use Rattle.std.specs.List.{flat_map};
ghost use Rattle.scene_model.specs.Sound.{IsBorder, IsPage};
ghost use Rattle.scene_model.specs.Separations.{within, group_separations, on_page, declared_size, page_separations};
ghost use Rattle.sep_gen.specs.Compiler.{IsCompiler};

use crate::compiler::Compiler;
use scene_model::{Group, Page, Sort, VariableName};
use units::{Memory, Name, Sep};

impl<'a> Compiler<'a> {
    /// Adds the separations of all groups, in order.
    pub(crate) fn add_groups(&self, list: &mut Vec<Sep>) -> Result<(), Memory>
        requires { IsCompiler self.now }
        ensures { OnOk result (list.new.items ≡ list.old.items ++ flat_map (group_separations self.now.scene.now self.now.axis) self.now.scene.now.groups) }
    {
        for at in 0..self.scene.count(Sort::Group) {
            self.add_group(self.scene.group(at), list)?;
        }
        Ok(())
    }

    /// Adds the separations of the page, if there is one.
    pub(crate) fn add_pages(&self, list: &mut Vec<Sep>) -> Result<(), Memory>
        requires { IsCompiler self.now }
        ensures { OnOk result (list.new.items ≡ list.old.items ++ flat_map (page_separations self.now.scene.now self.now.axis) self.now.scene.now.pages) }
    {
        if self.scene.count(Sort::Page) == 0 {
            return Ok(());
        }
        self.add_page(self.scene.page().unwrap(), list)
    }

    fn add_group(&self, group: &Group, list: &mut Vec<Sep>) -> Result<(), Memory>
        requires known { IsCompiler self.now }
        requires pad { IsBorder group.now.pad }
        ensures { OnOk result (list.new.items ≡ list.old.items ++ group_separations self.now.scene.now self.now.axis group.now) }
    {
        self.add_members(&group.name, group.pad, group.members.list(), list)?;
        list.push(self.edges_apart(&group.name, 0, false))?;
        Ok(())
    }

    /// The intervals of the members lie within the edges, inset.
    fn add_members(
        &self,
        area: &Name,
        inset: i32,
        members: &[Name],
        list: &mut Vec<Sep>,
    ) -> Result<(), Memory>
        requires known { IsCompiler self.now }
        requires inset { IsBorder inset }
        ensures { OnOk result (list.new.items ≡ list.old.items ++ flat_map (within self.now.scene.now self.now.axis area.now inset) members.now) }
    {
        for member in members {
            self.add_within(area, inset, member, list)?;
        }
        Ok(())
    }

    /// The interval of the shape lies within the edges, inset.
    fn add_within(
        &self,
        area: &Name,
        inset: i32,
        shape: &Name,
        list: &mut Vec<Sep>,
    ) -> Result<(), Memory>
        requires known { IsCompiler self.now }
        requires inset { IsBorder inset }
        ensures { OnOk result (list.new.items ≡ list.old.items ++ within self.now.scene.now self.now.axis area.now inset shape.now) }
    {
        let reach = self.size(shape) + inset;
        list.push(self.between(
            VariableName::LowEdge(*area),
            VariableName::OfItem(*shape),
            inset,
            false,
        ))?;
        list.push(self.between(
            VariableName::OfItem(*shape),
            VariableName::HighEdge(*area),
            reach,
            false,
        ))?;
        Ok(())
    }

    fn add_page(&self, page: &Page, list: &mut Vec<Sep>) -> Result<(), Memory>
        requires known { IsCompiler self.now }
        requires page { IsPage page.now }
        ensures { OnOk result (list.new.items ≡ list.old.items ++ page_separations self.now.scene.now self.now.axis page.now) }
    {
        self.add_shapes(page, list)?;
        list.push(self.edges_apart(&page.name, 0, false))?;
        self.add_declared_size(page, list)
    }

    /// All shapes lie within the edges of the page, inset by its margin.
    fn add_shapes(&self, page: &Page, list: &mut Vec<Sep>) -> Result<(), Memory>
        requires known { IsCompiler self.now }
        requires page { IsPage page.now }
        ensures { OnOk result (list.new.items ≡ list.old.items ++ flat_map (on_page self.now.scene.now self.now.axis page.now) self.now.scene.now.shapes) }
    {
        for at in 0..self.scene.count(Sort::Shape) {
            let shape = self.scene.shape(at).name;
            self.add_within(&page.name, page.margin, &shape, list)?;
        }
        Ok(())
    }

    /// A rigid page keeps its declared size.
    fn add_declared_size(&self, page: &Page, list: &mut Vec<Sep>) -> Result<(), Memory>
        requires known { IsCompiler self.now }
        requires page { IsPage page.now }
        ensures { OnOk result (list.new.items ≡ list.old.items ++ declared_size self.now.scene.now self.now.axis page.now) }
    {
        if page.rigid {
            let size = page.size(self.axis);
            list.push(self.edges_apart(&page.name, size, true))?;
        }
        Ok(())
    }
}
