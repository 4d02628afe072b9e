//! What compiling an axis needs at hand, and the separations that it makes one by one.
ghost use Rattle.std.specs.Prelude.{◌≡◌, ◌≤ℤ◌, pos, IfOk};
ghost use Rattle.scene_model.specs.Meaning.{size_of};
ghost use Rattle.scene_model.specs.Separations.{between, on_guide, behind, edges_apart};
ghost use Rattle.sep_gen.specs.Compiler.{IsCompiler, IsCompilerOf};

use crate::index::VariableIndex;
use scene_model::{AlignLine, Scene, Sort, VariableName};
use std::alloc::Global;
use units::{Axis, Memory, Name, Sep};

/// A scene on one of its axes, with the variables by name.
#[derive(Drop)]
pub(crate) struct Compiler<'a> {
    pub(crate) scene: &'a Scene,
    pub(crate) axis: Axis,
    pub(crate) index: VariableIndex,
}

impl<'a> Compiler<'a> {
    /// What compiling this axis of the scene needs: the index is made here, once.
    pub(crate) fn of(alloc: Global, scene: &'a Scene, axis: Axis) -> Result<Self, Memory>
        ensures { IfOk result (λ compiler. IsCompilerOf scene.now axis compiler) }
    {
        Ok(Compiler {
            scene,
            axis,
            index: VariableIndex::of(alloc, scene, axis)?,
        })
    }

    /// The separation between the variables of two names.
    pub(crate) fn between(
        &self,
        left: VariableName,
        right: VariableName,
        gap: i32,
        exact: bool,
    ) -> Sep
        requires { IsCompiler self.now }
        ensures { result ≡ between self.now.scene.now self.now.axis left right gap exact }
    {
        Sep {
            left: self.index.number(&left),
            right: self.index.number(&right),
            gap,
            exact,
        }
    }

    /// A line of the shape lies on the guideline.
    pub(crate) fn on_guide(&self, guide: &Name, line: AlignLine, shape: &Name) -> Sep
        requires { IsCompiler self.now }
        ensures { result ≡ on_guide self.now.scene.now self.now.axis guide.now line shape.now }
    {
        let offset = line.offset(self.size(shape));
        self.between(
            VariableName::OfItem(*shape),
            VariableName::OfItem(*guide),
            offset,
            true,
        )
    }

    /// The second item stands so far behind the first.
    pub(crate) fn behind(&self, gap: i32, exact: bool, a: &Name, b: &Name) -> Sep
        requires { IsCompiler self.now }
        ensures { result ≡ behind self.now.scene.now self.now.axis gap exact a.now b.now }
    {
        self.between(
            VariableName::OfItem(*a),
            VariableName::OfItem(*b),
            gap,
            exact,
        )
    }

    /// The edges of a group or page stand so far from one another.
    pub(crate) fn edges_apart(&self, area: &Name, gap: i32, exact: bool) -> Sep
        requires { IsCompiler self.now }
        ensures { result ≡ edges_apart self.now.scene.now self.now.axis area.now gap exact }
    {
        self.between(
            VariableName::LowEdge(*area),
            VariableName::HighEdge(*area),
            gap,
            exact,
        )
    }

    /// The size of the shape of this name; 0 where none stands.
    pub(crate) fn size(&self, shape: &Name) -> i32
        requires { IsCompiler self.now }
        ensures value { result ≡ size_of self.now.scene.now self.now.axis shape.now }
        ensures low { pos 0 ≤ℤ result }
        ensures high { result ≤ℤ pos 10000 }
    {
        let number = self.index.number(&VariableName::OfItem(*shape));
        if number >= self.scene.count(Sort::Shape) {
            return 0;
        }
        self.scene.shape(number).size(self.axis)
    }
}
