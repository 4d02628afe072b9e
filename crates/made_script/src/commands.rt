//! The command of a line.
ghost use Rattle.std.specs.Prelude.{◌≡◌, ◌≤◌, IfOk};
ghost use Rattle.made_script.specs.Draws.{after, drawn};
ghost use Rattle.made_script.specs.Steps.{axis_drawn, command_of, draws_of};
ghost use Rattle.made_script.specs.declared.steps.Kind.TheVariants as kind;

use crate::boxes::{box_of, item_name, two_boxes};
use crate::draws::Draws;
use crate::steps::Kind;
use edit_rules::Edit;
use scene_model::{AlignLine, Form};
use script_text::Command;
use std::alloc::Global;
use units::{Axis, Members, Memory};

fn put_box(k: u32, draws: &mut Draws) -> Command
    requires { k ≤ 120 }
    ensures state { draws.new.state ≡ after 4 draws.old.state }
    ensures command { result ≡ command_of kind.Box k draws.old.state }
{
    let x = draws.place();
    let y = draws.place();
    let w = 20 + draws.below(81) as i32;
    let h = 10 + draws.below(41) as i32;
    let name = box_of(k);
    Command::Edit(Edit::Put {
        name,
        form: Form::Box,
        x,
        y,
        w,
        h,
    })
}

fn guide(k: u32, draws: &mut Draws) -> Command
    requires { k ≤ 120 }
    ensures state { draws.new.state ≡ after 1 draws.old.state }
    ensures command { result ≡ command_of kind.Guide k draws.old.state }
{
    let at = draws.place();
    let name = item_name(b'g', k);
    Command::Edit(Edit::Guide {
        name,
        axis: Axis::X,
        at,
    })
}

fn link(k: u32, draws: &mut Draws) -> Command
    requires { k ≤ 120 }
    ensures state { draws.new.state ≡ after 2 draws.old.state }
    ensures command { result ≡ command_of kind.Link k draws.old.state }
{
    let name = item_name(b'l', k);
    let ends = two_boxes(draws);
    Command::Edit(Edit::Join {
        name,
        a: ends.0,
        b: ends.1,
    })
}

fn align(alloc: Global, k: u32, draws: &Draws) -> Result<Command, Memory>
    requires { (1 ≤ k) × (k ≤ 120) }
    ensures { IfOk result (λ command. command ≡ command_of kind.Align k draws.now.state) }
{
    let boxes = [box_of(12 * k - 11), box_of(12 * k - 7), box_of(12 * k - 3)];
    let members = Members::of(Vec::from_slice(alloc, &boxes)?).unwrap();
    Ok(Command::Edit(Edit::Align {
        name: item_name(b'c', k),
        guide: item_name(b'g', k),
        line: AlignLine::Mid,
        members,
    }))
}

fn axis(draws: &mut Draws) -> Axis
    ensures state { draws.new.state ≡ after 1 draws.old.state }
    ensures axis { result ≡ axis_drawn draws.new.state }
{
    if draws.below(2) == 0 {
        Axis::X
    } else {
        Axis::Y
    }
}

fn apart(k: u32, draws: &mut Draws) -> Command
    requires { k ≤ 120 }
    ensures state { draws.new.state ≡ after 4 draws.old.state }
    ensures command { result ≡ command_of kind.Apart k draws.old.state }
{
    let name = item_name(b'd', k);
    let axis = axis(draws);
    let ends = two_boxes(draws);
    let gap = draws.below(201) as i32;
    Command::Edit(Edit::Apart {
        name,
        axis,
        a: ends.0,
        b: ends.1,
        gap,
        exact: false,
    })
}

fn move_box(k: u32, draws: &mut Draws) -> Command
    ensures state { draws.new.state ≡ after 3 draws.old.state }
    ensures command { result ≡ command_of kind.Move k draws.old.state }
{
    let name = box_of(draws.below(96) + 1);
    let x = draws.place();
    let y = draws.place();
    Command::Edit(Edit::Move { name, x, y })
}

/// The command of the line of its kind with this number.
pub fn command_of(alloc: Global, kind: Kind, k: u32, draws: &mut Draws) -> Result<Command, Memory>
    requires { (1 ≤ k) × (k ≤ 120) }
    ensures state { draws.new.state ≡ after (draws_of kind) draws.old.state }
    ensures command { IfOk result (λ command. command ≡ command_of kind k draws.old.state) }
{
    match kind {
        Kind::Box => Ok(put_box(k, draws)),
        Kind::Guide => Ok(guide(k, draws)),
        Kind::Link => Ok(link(k, draws)),
        Kind::Align => align(alloc, k, draws),
        Kind::Apart => Ok(apart(k, draws)),
        Kind::Move => Ok(move_box(k, draws)),
        Kind::Undo => Ok(Command::Undo),
        Kind::Layout => Ok(Command::Layout),
    }
}
