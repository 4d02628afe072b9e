//! The variables of an axis, found by name.
ghost use Rattle.std.specs.Prelude.{◌≡◌, OnOk, IfOk, length};
ghost use Rattle.scene_model.specs.Variables.{variables, number_or_count};
ghost use Rattle.sep_gen.specs.Index.{number_in, IsNoted, IsIndex};

use indexmap::IndexMap;
use scene_model::{Scene, VariableName};
use std::alloc::Global;
use units::{Axis, Memory};

/// The numbers of the variables of an axis, by name.
#[derive(Drop)]
pub(crate) struct VariableIndex {
    numbers: IndexMap<VariableName, u16>,
    /// How many variables there are.
    count: u16,
}

impl VariableIndex {
    /// The index of the variables of an axis. Where two have one name, the first counts.
    pub(crate) fn of(alloc: Global, scene: &Scene, axis: Axis) -> Result<VariableIndex, Memory>
        ensures { IfOk result (λ index. IsIndex scene.now axis index) }
    {
        let count = scene.vars(axis);
        let mut index = VariableIndex {
            numbers: IndexMap::new(alloc),
            count,
        };
        for done in 0..count {
            let number = count - 1 - done;
            index.note(scene.variable(axis, number).name, number)?;
        }
        Ok(index)
    }

    /// Notes the number of a name.
    fn note(&mut self, name: VariableName, number: u16) -> Result<(), Memory>
        ensures { OnOk result (IsNoted self.old self.new name number) }
    {
        self.numbers.insert(name, number)?;
        Ok(())
    }

    /// The number of the variable of this name; of a name that no variable has, how many variables there are.
    pub(crate) fn number(&self, name: &VariableName) -> u16
        ensures { result ≡ number_in self.now name.now }
    {
        match self.numbers.get(name) {
            Some(number) => *number,
            None => self.count,
        }
    }
}
