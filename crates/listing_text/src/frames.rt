//! The lines of a frame.
ghost use Rattle.std.specs.Prelude.{◌≡◌, ◌∷◌, ◌++◌, [], length, decimal, OnOk};
ghost use Rattle.std.specs.Fmt.{signed_decimal};
ghost use Rattle.scene_model.specs.Variables.{variables};
ghost use Rattle.script_text.specs.Grammar.{axis_word};
ghost use Rattle.doc_book.specs.Listing.{variable_word, fraction_word, text_line, text_lines, place_lines, multiplier_lines, certificate_lines, frame_lines, lines_below};
ghost use Rattle.listing_text.specs.Steps.{HasPlaces, IsPlacing};
ghost use Rattle.units.specs.declared.geometry.Axis.TheVariants as axes;

use crate::words::{add_fraction, add_number, add_word, axis_word, begin_with};
use doc_book::Act;
use frac128::Frac;
use frame_store::Frame;
use multiplier_check::Certificate;
use scene_model::{Scene, VariableName};
use std::alloc::AllocError;
use units::{Axis, Name};

/// Adds the name of a variable, with `.low` or `.high` behind it where it is that of an edge.
fn add_variable(text: &mut Vec<u8>, name: &VariableName) -> Result<(), AllocError>
    ensures { OnOk result (text.new.items ≡ text.old.items ++ 32 ∷ variable_word name.now) }
{
    match name {
        VariableName::OfItem(name) => add_word(text, name.bytes()),
        VariableName::LowEdge(name) => add_edge(text, name, b".low"),
        VariableName::HighEdge(name) => add_edge(text, name, b".high"),
    }
}

fn add_edge(text: &mut Vec<u8>, name: &Name, edge: &[u8]) -> Result<(), AllocError>
    ensures { OnOk result (text.new.items ≡ text.old.items ++ 32 ∷ (name.now ++ edge.now)) }
{
    add_word(text, name.bytes())?;
    text.extend_from_slice(edge)?;
    Ok(())
}

/// Adds the line of a variable: its name, its desired place and its place.
fn add_place_line(
    text: &mut Vec<u8>,
    axis: Axis,
    name: &VariableName,
    desired: i64,
    place: &Frac,
) -> Result<(), AllocError>
    ensures { OnOk result (text.new.items ≡ text.old.items
        ++ text_line (axis_word axis ∷ variable_word name.now ∷ signed_decimal desired ∷ fraction_word place.now ∷ [])) }
{
    text.extend_from_slice(axis_word(axis))?;
    add_variable(text, name)?;
    add_number(text, desired)?;
    add_fraction(text, place)?;
    text.push(b'\n')?;
    Ok(())
}

/// Adds the lines of the variables of an axis.
fn add_places(
    text: &mut Vec<u8>,
    scene: &Scene,
    axis: Axis,
    desired: &[i64],
    places: &[Frac],
) -> Result<(), AllocError>
    requires wanted { length desired.now ≡ length (variables scene.now axis) }
    requires placed { length places.now ≡ length (variables scene.now axis) }
    ensures { OnOk result (text.new.items ≡ text.old.items
        ++ text_lines (place_lines axis (variables scene.now axis) desired.now places.now)) }
{
    for var in 0..scene.vars(axis) {
        let at = usize::from(var);
        let variable = scene.variable(axis, var);
        add_place_line(text, axis, &variable.name, desired[at], &places[at])?;
    }
    Ok(())
}

/// Adds the line of a separation: its number and its multiplier.
fn add_multiplier_line(
    text: &mut Vec<u8>,
    axis: Axis,
    number: usize,
    multiplier: &Frac,
) -> Result<(), AllocError>
    ensures { OnOk result (text.new.items ≡ text.old.items
        ++ text_line (axis_word axis ∷ (35 ∷ decimal number) ∷ fraction_word multiplier.now ∷ [])) }
{
    text.extend_from_slice(axis_word(axis))?;
    text.extend_from_slice(b" #")?;
    begin_with(text, number)?;
    add_fraction(text, multiplier)?;
    text.push(b'\n')?;
    Ok(())
}

/// Adds the lines of the multipliers that aren't 0.
fn add_multipliers(text: &mut Vec<u8>, axis: Axis, multipliers: &[Frac]) -> Result<(), AllocError>
    ensures { OnOk result (text.new.items ≡ text.old.items ++ text_lines (multiplier_lines axis 0 multipliers.now)) }
{
    for (number, multiplier) in multipliers.iter().enumerate() {
        if multiplier.is_zero() {
            continue;
        }
        add_multiplier_line(text, axis, number, multiplier)?;
    }
    Ok(())
}

/// Adds the lines of a frame on an axis: its variables, then its multipliers.
fn add_certificate(
    text: &mut Vec<u8>,
    scene: &Scene,
    axis: Axis,
    desired: &[i64],
    certificate: &Certificate,
) -> Result<(), AllocError>
    requires { HasPlaces scene.now axis desired.now certificate.now }
    ensures { OnOk result (text.new.items ≡ text.old.items
        ++ text_lines (certificate_lines axis scene.now desired.now certificate.now)) }
{
    add_places(text, scene, axis, desired, certificate.places.as_slice())?;
    add_multipliers(text, axis, certificate.multipliers.as_slice())
}

/// Adds the lines of a frame of the scene, X before Y.
fn add_frame(text: &mut Vec<u8>, scene: &Scene, frame: &Frame) -> Result<(), AllocError>
    requires on_x { HasPlaces scene.now axes.X frame.now.desired.x frame.now.x }
    requires on_y { HasPlaces scene.now axes.Y frame.now.desired.y frame.now.y }
    ensures { OnOk result (text.new.items ≡ text.old.items ++ text_lines (frame_lines scene.now frame.now)) }
{
    let desired = &frame.desired;
    add_certificate(text, scene, Axis::X, desired.x.as_slice(), &frame.x)?;
    add_certificate(text, scene, Axis::Y, desired.y.as_slice(), &frame.y)
}

/// Adds the lines below an act.
pub fn add_lines_below(text: &mut Vec<u8>, scene: &Scene, act: &Act) -> Result<(), AllocError>
    requires { IsPlacing scene.now act.now }
    ensures { OnOk result (text.new.items ≡ text.old.items ++ text_lines (lines_below scene.now act.now)) }
{
    match act {
        Act::Frame(frame) => add_frame(text, scene, frame),
        Act::Edit(_) => Ok(()),
        Act::Undo => Ok(()),
        Act::End => Ok(()),
    }
}
