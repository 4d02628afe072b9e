//! Where the item of a name stands.
ghost use Rattle.std.specs.Prelude.{◌≡◌, ◌⊎◌, ◌<◌, ◌^◌, Some, IsSome, MatchResult, length};
ghost use Rattle.units.specs.declared.geometry.Axis.TheVariants as axes;
ghost use Rattle.scene_model.specs.declared.items.Sort.TheVariants as sort;
ghost use Rattle.scene_model.specs.Names.{along};
ghost use Rattle.scene_model.specs.Items.{item_named, sort_named};
ghost use Rattle.scene_model.specs.Variables.{variables, variable_number};
ghost use Rattle.doc_book.specs.Calls.{IsAsked};
ghost use Rattle.doc_book.specs.Legal.{IsLegal};
ghost use Rattle.doc_book.specs.Spots.{IsPlaceOf, IsSpot, ask_refusal};

use crate::book::Book;
use crate::replies::Refused;
use edit_rules::Refusal;
use frame_store::Places;
use scene_model::{Scene, Sort, VariableName};
use units::{Axis, Name};

/// Where an item stands, in whole diagram units: the present places of its variables.
#[derive(Clone, Copy, Debug, PartialEq, Eq)]
pub enum Spot {
    /// The low corner of a shape.
    Shape {
        x: i64,
        y: i64,
    },
    /// The line of a guideline, across this axis.
    Guide {
        axis: Axis,
        at: i64,
    },
    /// The low and the high edges of a group or page.
    Area {
        x_low: i64,
        y_low: i64,
        x_high: i64,
        y_high: i64,
    },
}

/// Where an item stands, and the front at which it was answered.
#[derive(Clone, Copy, Debug, PartialEq, Eq)]
pub struct Answer {
    pub spot: Spot,
    /// How many entries the history had.
    pub front: u32,
}

impl Book {
    /// Where the item of this name stands at the present places. Unknown comes exactly where no item of the scene has the
    /// name, Kind exactly where it is the name of a link or compound. It takes no memory and changes nothing.
    pub fn ask(&self, name: &Name) -> Result<Answer, Refused>
        ensures answer { IsAsked self.now name.now result }
        ensures legal { IsLegal self.now.history self.now.budget }
        ensures short { length self.now.history < 2 ^ 32 }
    {
        let front = self.front();
        match spot_of(self.scene(), self.places(), name) {
            Ok(spot) => Ok(Answer { spot, front }),
            Err(refusal) => Err(Refused { refusal, front }),
        }
    }
}

/// Where the item of this name stands, at the places of all variables.
pub(crate) fn spot_of(scene: &Scene, places: &Places, name: &Name) -> Result<Spot, Refusal>
    requires on_x { length places.now.x ≡ length (variables scene.now axes.X) }
    requires on_y { length places.now.y ≡ length (variables scene.now axes.Y) }
    ensures { MatchResult result (λ spot. IsSpot scene.now places.now name.now spot) (λ r. ask_refusal scene.now name.now ≡ Some r) }
{
    let Some(item) = scene.lookup(name) else {
        return Err(Refusal::Unknown { name: *name });
    };
    match item.sort {
        Sort::Shape => Ok(shape_spot(scene, places, name)),
        Sort::Guide => Ok(guide_spot(scene, places, name, item.at)),
        Sort::Link | Sort::Compound => Err(Refusal::Kind { name: *name }),
        Sort::Group | Sort::Page => Ok(area_spot(scene, places, name)),
    }
}

fn shape_spot(scene: &Scene, places: &Places, name: &Name) -> Spot
    requires stands { sort_named scene.now name.now ≡ Some sort.Shape }
    requires on_x { length places.now.x ≡ length (variables scene.now axes.X) }
    requires on_y { length places.now.y ≡ length (variables scene.now axes.Y) }
    ensures { IsSpot scene.now places.now name.now result }
{
    let variable = VariableName::OfItem(*name);
    Spot::Shape {
        x: place(scene, Axis::X, places, &variable),
        y: place(scene, Axis::Y, places, &variable),
    }
}

/// The spot of the guideline of this name, which has this number.
fn guide_spot(scene: &Scene, places: &Places, name: &Name, at: u16) -> Spot
    requires stands { item_named scene.now name.now ≡ Some (record { sort = sort.Guide; at = at }) }
    requires on_x { length places.now.x ≡ length (variables scene.now axes.X) }
    requires on_y { length places.now.y ≡ length (variables scene.now axes.Y) }
    ensures { IsSpot scene.now places.now name.now result }
{
    let axis = scene.guide(at).axis;
    let variable = VariableName::OfItem(*name);
    Spot::Guide {
        axis,
        at: place(scene, axis, places, &variable),
    }
}

/// The spot of the group or page of this name.
fn area_spot(scene: &Scene, places: &Places, name: &Name) -> Spot
    requires stands { (sort_named scene.now name.now ≡ Some sort.Group) ⊎ (sort_named scene.now name.now ≡ Some sort.Page) }
    requires on_x { length places.now.x ≡ length (variables scene.now axes.X) }
    requires on_y { length places.now.y ≡ length (variables scene.now axes.Y) }
    ensures { IsSpot scene.now places.now name.now result }
{
    let low = VariableName::LowEdge(*name);
    let high = VariableName::HighEdge(*name);
    Spot::Area {
        x_low: place(scene, Axis::X, places, &low),
        y_low: place(scene, Axis::Y, places, &low),
        x_high: place(scene, Axis::X, places, &high),
        y_high: place(scene, Axis::Y, places, &high),
    }
}

/// The place of the variable of this name, among those of its axis.
fn place(scene: &Scene, axis: Axis, places: &Places, name: &VariableName) -> i64
    requires stands { IsSome (variable_number scene.now axis name.now) }
    requires on_x { length places.now.x ≡ length (variables scene.now axes.X) }
    requires on_y { length places.now.y ≡ length (variables scene.now axes.Y) }
    ensures { IsPlaceOf scene.now axis (along axis places.now.x places.now.y) name.now result }
{
    match axis {
        Axis::X => place_among(scene, axis, places.x.as_slice(), name),
        Axis::Y => place_among(scene, axis, places.y.as_slice(), name),
    }
}

fn place_among(scene: &Scene, axis: Axis, places: &[i64], name: &VariableName) -> i64
    requires stands { IsSome (variable_number scene.now axis name.now) }
    requires as_long { length places.now ≡ length (variables scene.now axis) }
    ensures { IsPlaceOf scene.now axis places.now name.now result }
{
    let number = scene.variable_number(axis, name).unwrap();
    places[usize::from(number)]
}
