//! The edited scene.
ghost use Rattle.std.specs.Prelude.{◌≡◌, ◌+◌, ◌<◌, true, None, Some, MatchResult, OnOk, OnErr};
ghost use Rattle.scene_model.specs.declared.items.Sort.TheVariants as sorts;
ghost use Rattle.scene_model.specs.declared.items.Thing.TheVariants.{Shape as ThingShape, Guide as ThingGuide};
ghost use Rattle.scene_model.specs.declared.items.Shape.{Shape as ShapeValue};
ghost use Rattle.scene_model.specs.declared.items.Guide.{Guide as GuideValue};
ghost use Rattle.scene_model.specs.Sound.{IsCoordinate, IsExtent, IsShape, IsSound};
ghost use Rattle.scene_model.specs.Items.{stands, sort_named, thing_named, with_thing, with_replaced, without, IsThing, HasRoomFor, name_of_thing};
ghost use Rattle.edit_rules.specs.Effects.{made, changed, with_shape, with_guide, edited};
ghost use Rattle.edit_rules.specs.Moves.{CanMove, HasMovesLeft};
ghost use Rattle.edit_rules.specs.Refusals.{refusal_of};

use crate::corners::group_around;
use crate::edits::Edit;
use scene_model::{Compound, Guide, Link, Page, Rule, Scene, Shape, Sort, Thing};
use units::{Memory, Name};

/// Edits the scene, which accepts the edit: `check` tells. The item that a move or shift names was moved fewer than
/// 2^32 - 1 times: `has_moves_left` tells. After want of memory the scene is as before.
#[tactic(auto, unfolding(crate::specs::Effects::edited))]
pub fn apply(scene: &mut Scene, edit: Edit) -> Result<(), Memory>
    requires accepted { refusal_of scene.old edit ≡ None }
    requires few { HasMovesLeft scene.old edit }
    ensures edited { OnOk result (scene.new ≡ edited edit scene.old) }
    ensures unchanged { OnErr result (scene.new ≡ scene.old) }
{
    // Asked for what its type keeps, which the proof needs.
    let _shapes = scene.count(Sort::Shape);
    match item_made(scene, edit) {
        Ok(thing) => scene.add(thing),
        Err(edit) => {
            change(scene, &edit);
            Ok(())
        }
    }
}

/// The item that the edit makes; or the edit, where it makes none.
fn item_made(scene: &Scene, edit: Edit) -> Result<Thing, Edit>
    ensures { MatchResult result (λ t. made scene.now edit ≡ Some t) (λ e. (e ≡ edit) × (made scene.now edit ≡ None)) }
{
    match edit {
        Edit::Put {
            name,
            form,
            x,
            y,
            w,
            h,
        } => Ok(Thing::Shape(Shape {
            name,
            form,
            x,
            y,
            w,
            h,
            held: false,
            moves: 0,
        })),
        Edit::Guide { name, axis, at } => Ok(Thing::Guide(Guide {
            name,
            axis,
            at,
            moves: 0,
        })),
        Edit::Join { name, a, b } => Ok(Thing::Link(Link { name, a, b })),
        Edit::Align {
            name,
            guide,
            line,
            members,
        } => Ok(Thing::Compound(Compound {
            name,
            rule: Rule::Align {
                guide,
                line,
                members,
            },
        })),
        Edit::Spread {
            name,
            axis,
            gap,
            members,
        } => Ok(Thing::Compound(Compound {
            name,
            rule: Rule::Spread { axis, gap, members },
        })),
        Edit::Rank {
            name,
            axis,
            gap,
            members,
        } => Ok(Thing::Compound(Compound {
            name,
            rule: Rule::Rank { axis, gap, members },
        })),
        Edit::Apart {
            name,
            axis,
            a,
            b,
            gap,
            exact,
        } => Ok(Thing::Compound(Compound {
            name,
            rule: Rule::Apart {
                axis,
                a,
                b,
                gap,
                exact,
            },
        })),
        Edit::Group { name, pad, members } => {
            Ok(Thing::Group(group_around(scene, name, pad, members)))
        }
        Edit::Page {
            name,
            x,
            y,
            w,
            h,
            margin,
            rigid,
        } => Ok(Thing::Page(Page {
            name,
            x,
            y,
            w,
            h,
            margin,
            rigid,
        })),
        other @ (Edit::Size { .. }
        | Edit::Move { .. }
        | Edit::Shift { .. }
        | Edit::Hold { .. }
        | Edit::Free { .. }
        | Edit::Remove { .. }
        | Edit::Unlink { .. }
        | Edit::Drop { .. }) => Err(other),
    }
}

/// Changes what the edit changes of the items that stand.
#[tactic(auto, unfolding(crate::specs::Refusals::refusal_of))]
fn change(scene: &mut Scene, edit: &Edit)
    requires accepted { refusal_of scene.old edit.now ≡ None }
    requires few { HasMovesLeft scene.old edit.now }
    ensures { scene.new ≡ changed edit.now scene.old }
{
    // Asked for what its type keeps, which the proof needs.
    let _shapes = scene.count(Sort::Shape);
    match edit {
        Edit::Size { name, w, h } => resize(scene, name, *w, *h),
        Edit::Move { name, x, y } => move_to(scene, name, *x, *y),
        Edit::Shift { name, at } => shift(scene, name, *at),
        Edit::Hold { name } => hold(scene, name, true),
        Edit::Free { name } => hold(scene, name, false),
        Edit::Remove { name } => remove(scene, name),
        Edit::Unlink { name } => remove(scene, name),
        Edit::Drop { name } => remove(scene, name),
        Edit::Put { .. }
        | Edit::Join { .. }
        | Edit::Guide { .. }
        | Edit::Align { .. }
        | Edit::Spread { .. }
        | Edit::Rank { .. }
        | Edit::Apart { .. }
        | Edit::Group { .. }
        | Edit::Page { .. } => {}
    }
}

/// Makes the shape of this name, which stands, so wide and so high.
fn resize(scene: &mut Scene, name: &Name, w: i32, h: i32)
    requires stands { sort_named scene.old name.now ≡ Some sorts.Shape }
    requires wide { IsExtent w }
    requires high { IsExtent h }
    ensures { scene.new ≡ with_shape scene.old name.now (λ (s : ShapeValue). record s { w = w; h = h }) }
{
    let shape = standing_shape(scene, name);
    set_shape(scene, Shape { w, h, ..shape });
}

/// Moves the shape of this name, which stands.
fn move_to(scene: &mut Scene, name: &Name, x: i32, y: i32)
    requires stands { sort_named scene.old name.now ≡ Some sorts.Shape }
    requires few { CanMove scene.old name.now }
    requires on_x { IsCoordinate x }
    requires on_y { IsCoordinate y }
    ensures { scene.new ≡ with_shape scene.old name.now (λ (s : ShapeValue). record s { x = x; y = y; moves = s.moves + 1 }) }
{
    let shape = standing_shape(scene, name);
    set_shape(
        scene,
        Shape {
            x,
            y,
            moves: shape.moves + 1,
            ..shape
        },
    );
}

/// Holds the shape of this name, which stands, or frees it.
fn hold(scene: &mut Scene, name: &Name, held: bool)
    requires stands { sort_named scene.old name.now ≡ Some sorts.Shape }
    ensures { scene.new ≡ with_shape scene.old name.now (λ (s : ShapeValue). record s { held = held }) }
{
    let shape = standing_shape(scene, name);
    set_shape(scene, Shape { held, ..shape });
}

/// The shape of this name, which stands.
fn standing_shape(scene: &Scene, name: &Name) -> Shape
    requires { sort_named scene.now name.now ≡ Some sorts.Shape }
    ensures value { thing_named scene.now name.now ≡ Some (ThingShape result) }
    ensures named { result.name ≡ name.now }
    ensures few { CanMove scene.now name.now → result.moves < 4294967295 }
    ensures sound { IsShape result }
{
    shape_found(scene, name)
}

fn shape_found(scene: &Scene, name: &Name) -> Shape
    requires { sort_named scene.now name.now ≡ Some sorts.Shape }
    ensures value { thing_named scene.now name.now ≡ Some (ThingShape result) }
    ensures sound { IsShape result }
{
    let item = scene.lookup(name).unwrap();
    *scene.shape(item.at)
}

/// Puts a changed shape in the place of the one of its name, which stands.
fn set_shape(scene: &mut Scene, shape: Shape)
    requires stands { sort_named scene.old shape.name ≡ Some sorts.Shape }
    requires sound { IsShape shape }
    ensures { scene.new ≡ with_replaced scene.old (ThingShape shape) }
{
    // Asked for what its type keeps, which the proof needs.
    let _shapes = scene.count(Sort::Shape);
    scene.set(Thing::Shape(shape));
}

/// The guideline of this name, which stands.
fn standing_guide(scene: &Scene, name: &Name) -> Guide
    requires { sort_named scene.now name.now ≡ Some sorts.Guide }
    ensures value { thing_named scene.now name.now ≡ Some (ThingGuide result) }
    ensures named { result.name ≡ name.now }
    ensures few { CanMove scene.now name.now → result.moves < 4294967295 }
{
    guide_found(scene, name)
}

fn guide_found(scene: &Scene, name: &Name) -> Guide
    requires { sort_named scene.now name.now ≡ Some sorts.Guide }
    ensures value { thing_named scene.now name.now ≡ Some (ThingGuide result) }
{
    let item = scene.lookup(name).unwrap();
    *scene.guide(item.at)
}

/// Shifts the guideline of this name, which stands.
fn shift(scene: &mut Scene, name: &Name, at: i32)
    requires stands { sort_named scene.old name.now ≡ Some sorts.Guide }
    requires few { CanMove scene.old name.now }
    requires near { IsCoordinate at }
    ensures { scene.new ≡ with_guide scene.old name.now (λ (g : GuideValue). record g { at = at; moves = g.moves + 1 }) }
{
    // Asked for what its type keeps, which the proof needs.
    let _guides = scene.count(Sort::Guide);
    let guide = standing_guide(scene, name);
    scene.set(Thing::Guide(Guide {
        at,
        moves: guide.moves + 1,
        ..guide
    }));
}

/// Takes the item of this name away, which stands and is free to go.
fn remove(scene: &mut Scene, name: &Name)
    requires stands { stands scene.old name.now ≡ true }
    requires sound { IsSound (without scene.old name.now) }
    ensures { scene.new ≡ without scene.old name.now }
{
    let _removed = scene.take(name);
}
