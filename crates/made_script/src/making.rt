//! Making scripts.
ghost use Rattle.std.specs.Prelude.{◌≡◌, ◌≤◌, ◌+◌, ◌*◌, IfOk, OnOk, fold, length};
ghost use Rattle.made_script.specs.Made.{made_lines, numbered, rounds, with_step};

use crate::commands::command_of;
use crate::draws::Draws;
use crate::steps::Kind;
use script_text::{Line, Script};
use std::alloc::Global;
use std::marker::Model;
use units::Memory;

/// A script in the making.
#[derive(Drop)]
struct Maker {
    draws: Draws,
    lines: Vec<Line>,
}

impl Model for Maker {
    ghost use Rattle.made_script.specs.Made.{Making};
    ghost use Rattle.script_text.specs.Scripts.{AreLines};

    ghost Value = { Making };

    ghost view = { λ a. record { state = a.draws.state; lines = a.lines.items } };

    ghost invariant = { λ a. AreLines 2 a.lines.items };
}

impl Maker {
    /// Adds the line of its kind with this number.
    fn add(&mut self, alloc: Global, kind: Kind, k: u32) -> Result<(), Memory>
        requires number { (1 ≤ k) × (k ≤ 120) }
        requires room { length self.old.lines + 1 ≤ 2000 }
        ensures made { OnOk result (self.new ≡ with_step self.old (kind, k)) }
        ensures longer { OnOk result (length self.new.lines ≡ length self.old.lines + 1) }
    {
        let number = self.lines.len() as u32 + 2;
        let command = command_of(alloc, kind, k, &mut self.draws)?;
        self.lines.push(Line {
            number,
            session: 1,
            command,
        })?;
        Ok(())
    }

    /// Adds so many lines of a kind, numbered from 1 on.
    fn add_all(&mut self, alloc: Global, kind: Kind, count: u32) -> Result<(), Memory>
        requires number { count ≤ 120 }
        requires room { length self.old.lines + count ≤ 2000 }
        ensures all { OnOk result (self.new ≡ fold with_step self.old (numbered kind count)) }
        ensures longer { OnOk result (length self.new.lines ≡ length self.old.lines + count) }
    {
        for k in 0..count {
            self.add(alloc, kind, k + 1)?;
        }
        Ok(())
    }
}

/// Adds so many rounds of five moves and a layout.
fn add_rounds(maker: &mut Maker, alloc: Global, count: u32) -> Result<(), Memory>
    requires number { count ≤ 8 }
    requires room { length maker.old.lines + 6 * count ≤ 2000 }
    ensures all { OnOk result (maker.new ≡ fold with_step maker.old (rounds count)) }
    ensures longer { OnOk result (length maker.new.lines ≡ length maker.old.lines + 6 * count) }
{
    for round in 0..count {
        maker.add_all(alloc, Kind::Move, 5)?;
        maker.add_all(alloc, Kind::Layout, 1)?;
    }
    Ok(())
}

/// Makes all lines.
fn make_all(alloc: Global, number: u32) -> Result<Maker, Memory>
    ensures lines { IfOk result (λ maker. maker.lines ≡ made_lines number) }
    ensures count { IfOk result (λ maker. length maker.lines ≡ 344) }
{
    let mut maker = Maker {
        draws: Draws {
            state: u64::from(number),
        },
        lines: Vec::new(alloc),
    };
    maker.add_all(alloc, Kind::Box, 96)?;
    maker.add_all(alloc, Kind::Guide, 8)?;
    maker.add_all(alloc, Kind::Link, 120)?;
    maker.add_all(alloc, Kind::Align, 8)?;
    maker.add_all(alloc, Kind::Apart, 60)?;
    add_rounds(&mut maker, alloc, 8)?;
    maker.add_all(alloc, Kind::Undo, 3)?;
    maker.add_all(alloc, Kind::Layout, 1)?;
    Ok(maker)
}

/// The made script of a number: 96 boxes, 8 guidelines, 120 links, 8 alignments, 60 separations and 40 moves with 8
/// layouts between them, then three times undo and a layout. The number is the first state of the draws; 1 to 1,000,000 are
/// those that the program takes.
pub fn made(alloc: Global, number: u32) -> Result<Script, Memory>
    ensures { IfOk result (λ script. script ≡ made_lines number) }
{
    let maker = make_all(alloc, number)?;
    let Maker { lines, .. } = maker;
    Ok(Script::of(lines))
}
