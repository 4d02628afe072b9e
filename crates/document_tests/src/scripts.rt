//! What no clause says: that scripts are read with ample memory, and which near misses are refused.
use edit_rules::Edit;
use scene_model::{AlignLine, Form};
use script_text::{Command, FaultKind, ReadFault, Script, ScriptFault, command_text, print, read};
use std::alloc::Global;
use std::test::Fail;
use units::{Axis, Members, Name};

/// The lines of a block, each with its LF, without what indents them.
fn lines_of(alloc: Global, block: &str) -> Result<Vec<u8>, Fail> {
    let mut text = Vec::new(alloc);
    for line in block.lines() {
        text.extend_from_slice(line.trim_start().as_bytes())?;
        text.push(b'\n')?;
    }
    Ok(text)
}

/// How many lines are read.
fn count(alloc: Global, bytes: &[u8]) -> Result<usize, ReadFault> {
    Ok(read(alloc, bytes)?.lines().len())
}

fn fault(line: u32, kind: FaultKind) -> ReadFault {
    ReadFault::Fault(ScriptFault { line, kind })
}

/// The bytes of the script that these bytes spell, printed.
fn printed(alloc: Global, bytes: &[u8]) -> Result<Vec<u8>, Fail> {
    let script = read(alloc, bytes).ok().ok_or("a script")?;
    Ok(print(alloc, &script)?)
}

#[test]
fn scripts_are_read_and_printed(rt: HostRuntime) -> Result<(), Fail> {
    for (block, lines) in [
        (
            "dunnart 1
            end",
            0,
        ),
        (
            "dunnart 1
            1 box a 3 4 40 20
            1 layout
            1 layout
            end",
            3,
        ),
        (
            "dunnart 1
            1 oval a 0 0 10 10
            8 diamond b -5 0 10 10
            2 size a 10 999999999
            3 move a 0 -1
            end",
            4,
        ),
        (
            "dunnart 1
            4 hold a
            5 free a
            6 remove a
            1 guide g x 0
            2 shift g -5
            3 where g
            end",
            6,
        ),
        (
            "dunnart 1
            1 box a 0 0 10 10
            1 guide g x 0
            1 link l a a
            1 align c g mid a
            1 spread s y 80 a a23456789012345678901234
            1 rank r y -1 a g
            1 apart t x a b 20 exact
            1 group k 15 a
            1 page p 0 0 600 800 20 soft
            1 drop p
            1 unlink l
            2 undo
            2 undo
            end",
            13,
        ),
        (
            "dunnart 1
            1 box b_2 -999999999 0 999999999 1
            1 box a23456789012345678901234 1 1 1 1
            end",
            2,
        ),
    ] {
        let bytes = lines_of(rt.alloc(), block)?;
        assert_eq!(rt; count(rt.alloc(), &bytes), Ok(lines), "{block}");
        assert_eq!(rt; printed(rt.alloc(), &bytes)?, bytes, "{block}");
    }
    Ok(())
}

#[test]
fn faults_have_lines_and_kinds(rt: HostRuntime) -> Result<(), Fail> {
    for (text, line, kind) in [
        ("", 1, FaultKind::Missing),
        ("dunnart 1", 1, FaultKind::Cut),
        ("dunnart 2\nend\n", 1, FaultKind::Header),
        ("Dunnart 1\nend\n", 1, FaultKind::Header),
        ("dunnart 1\r\nend\n", 1, FaultKind::Header),
        ("dunnart 1\n", 2, FaultKind::Missing),
        ("dunnart 1\nend", 2, FaultKind::Cut),
        ("dunnart 1\n1 box a 0", 2, FaultKind::Cut),
        ("dunnart 1\n1 layout", 2, FaultKind::Cut),
        ("dunnart 1\n1 layout\n", 3, FaultKind::Missing),
        ("dunnart 1\n1 layout\nEnd\n", 3, FaultKind::Session),
        ("dunnart 1\n\nend\n", 2, FaultKind::Session),
        ("dunnart 1\nend\nx", 3, FaultKind::After),
        ("dunnart 1\n1 layout\nend\n\n", 4, FaultKind::After),
        ("dunnart 1\nend\n1 layout\n", 3, FaultKind::After),
        (
            "dunnart 1\n1 layout\n1 undo\n1 redo\nend\n",
            4,
            FaultKind::Command,
        ),
    ] {
        let answer = count(rt.alloc(), text.as_bytes());
        assert_eq!(rt; answer, Err(fault(line, kind)), "{text}");
    }
    Ok(())
}

/// The kind of the fault of a script with this one command line, in that line; None where it is read.
fn kind_of(alloc: Global, line: &str) -> Result<Option<FaultKind>, Fail> {
    let text = format!(in alloc; "dunnart 1\n{line}\nend\n")?;
    match read(alloc, text.as_bytes()) {
        Ok(_) => Ok(None),
        Err(ReadFault::Fault(ScriptFault { line: 2, kind })) => Ok(Some(kind)),
        Err(_) => Err(Fail::from("a fault in line 2")),
    }
}

const SESSION: &str = "\
0 layout
9 layout
11 layout
1
";

const COMMAND: &str = "\
1  layout
1 bax a 3 4 40 20
1 Box a 0 0 10 10
1 redo
1 Undo
1 aligns c g mid a
";

const FIELDS: &str = "\
1 box a 3 4 40
1 box a 3 4 40 20 7
1 box a 3  4 40 20
1 box a -0 4 40 20
1 box a 03 4 40 20
1 box a +3 4 40 20
1 box a 1234567890 4 40 20
1 box a234567890123456789012345 3 4 40 20
1 box 2a 3 4 40 20
1 oval a 0 0 10
1 diamond a 0 0 10 10 10
1 size a 10
1 move a 0 -0
1 shift g 01
1 shift g
1 shift g x 5
1 hold
1 free 2a
1 remove a b
1 link l a
1 link l a b c
1 unlink l m
1 guide g z 200
1 guide g X 200
1 guide g 200 x
1 guide g x
1 guide g x 200 1
1 align c g middle a
1 align c g mid
1 align c g mid a  b
1 align c mid a b
1 spread s y 80
1 spread s 80 y a
1 spread s y a b
1 rank r x 0 a 1
1 rank r x 00 a
1 apart s x a b 20
1 apart s x a b 20 Least
1 apart s x a b 20 least b
1 apart s x a 20 exact
1 group g a b
1 group g 15
1 page p 0 0 600 800 20 hard
1 page p 0 0 600 800 soft
1 page p 0 0 600 800 20 soft 1
1 drop -
1 drop c d
1 undo a
1 undo 1
1 where
1 where 2a
1 where a b
";

/// Whether each line of the block is refused with this kind.
fn are_refused(alloc: Global, block: &str, kind: FaultKind) -> Result<(), Fail> {
    for line in block.lines() {
        if kind_of(alloc, line)? != Some(kind) {
            return Err(line.into());
        }
    }
    Ok(())
}

#[test]
fn lines_are_refused(rt: HostRuntime) -> Result<(), Fail> {
    let alloc = rt.alloc();
    are_refused(alloc, SESSION, FaultKind::Session)?;
    are_refused(alloc, COMMAND, FaultKind::Command)?;
    are_refused(alloc, FIELDS, FaultKind::Fields)
}

// Blanks at an end, which none sees in a block, and tabs.
#[test]
fn blanks_are_refused(rt: HostRuntime) -> Result<(), Fail> {
    for (line, kind) in [
        (" 1 layout", FaultKind::Session),
        ("1 ", FaultKind::Command),
        ("1 undo\t", FaultKind::Command),
        ("1 layout ", FaultKind::Fields),
        ("1 box a 3 4 40 20 ", FaultKind::Fields),
        ("1 box a 3\t4 40 20", FaultKind::Fields),
        ("1 link l a b ", FaultKind::Fields),
        ("1 unlink ", FaultKind::Fields),
        ("1 align c g mid ", FaultKind::Fields),
        ("1 align c g mid a ", FaultKind::Fields),
        ("1 undo ", FaultKind::Fields),
    ] {
        assert_eq!(rt; kind_of(rt.alloc(), line)?, Some(kind), "{line}");
    }
    Ok(())
}

/// A script of so many lines `1 layout`, and a line of `1 group gg 1` with so many members of one letter.
fn long_script(alloc: Global, layouts: usize, members: usize) -> Result<Vec<u8>, Fail> {
    let mut text = Vec::from_slice(alloc, b"dunnart 1\n")?;
    for _ in 0..layouts {
        text.extend_from_slice(b"1 layout\n")?;
    }
    if members > 0 {
        text.extend_from_slice(b"1 group gg 1")?;
        for _ in 0..members {
            text.extend_from_slice(b" a")?;
        }
        text.push(b'\n')?;
    }
    text.extend_from_slice(b"end\n")?;
    Ok(text)
}

#[test]
fn long_scripts_are_refused(rt: HostRuntime) -> Result<(), Fail> {
    for (layouts, members, read) in [
        (1999, 0, Ok(1999)),
        (2000, 0, Ok(2000)),
        (2001, 0, Err(fault(2002, FaultKind::TooMany))),
        (0, 1018, Ok(1)),
        (0, 1019, Err(fault(2, FaultKind::Long))),
        (2000, 1018, Err(fault(2002, FaultKind::TooMany))),
        (2000, 1019, Err(fault(2002, FaultKind::Long))),
    ] {
        let text = long_script(rt.alloc(), layouts, members)?;
        assert_eq!(rt; count(rt.alloc(), &text), read, "{layouts} {members}");
    }
    Ok(())
}

fn put(name: Name, form: Form) -> Command {
    Command::Edit(Edit::Put {
        name,
        form,
        x: -1_000_000,
        y: 0,
        w: 10_000,
        h: 1,
    })
}

fn page(name: Name, rigid: bool) -> Command {
    Command::Edit(Edit::Page {
        name,
        x: 1,
        y: -2,
        w: 600,
        h: 800,
        margin: 20,
        rigid,
    })
}

fn apart(name: Name, a: Name, b: Name, exact: bool) -> Command {
    Command::Edit(Edit::Apart {
        name,
        axis: Axis::X,
        a,
        b,
        gap: 20,
        exact,
    })
}

/// An alignment of the guideline itself and another item to it.
fn align(alloc: Global, name: Name, guide: Name, line: AlignLine) -> Result<Command, Fail> {
    Ok(Command::Edit(Edit::Align {
        name,
        guide,
        line,
        members: members(alloc, guide, name)?,
    }))
}

fn members(alloc: Global, a: Name, b: Name) -> Result<Members, Fail> {
    Ok(Members::of(vec![in alloc; a, b]?).ok_or("two members")?)
}

/// The script with this one line.
fn one_line(alloc: Global, text: &str) -> Result<Script, Fail> {
    let bytes = format!(in alloc; "dunnart 1\n1 {text}\nend\n")?;
    Ok(read(alloc, bytes.as_bytes()).ok().ok_or("a script")?)
}

/// Whether the command is that of the text's line, alone.
fn is_read(alloc: Global, text: &str, command: &Command) -> Result<bool, Fail> {
    let script = one_line(alloc, text)?;
    match script.lines().first() {
        Some(line) => Ok(
            script.lines().len() == 1
                && line.number == 2
                && line.session == 1
                && line.command == *command,
        ),
        None => Ok(false),
    }
}

/// Fails where the command isn't printed as this text, or not read back from it.
fn is_told(alloc: Global, text: &str, command: Command) -> Result<(), Fail> {
    let printed = command_text(alloc, &command)?;
    if printed.as_slice() != text.as_bytes() {
        return Err(text.into());
    }
    if !is_read(alloc, text, &command)? {
        return Err(text.into());
    }
    Ok(())
}

fn edit_is_told(alloc: Global, text: &str, edit: Edit) -> Result<(), Fail> {
    is_told(alloc, text, Command::Edit(edit))
}

fn items_are_told(alloc: Global, name: Name, a: Name, b: Name) -> Result<(), Fail> {
    let axis = Axis::Y;
    is_told(alloc, "box c_2 -1000000 0 10000 1", put(name, Form::Box))?;
    is_told(alloc, "oval c_2 -1000000 0 10000 1", put(name, Form::Oval))?;
    is_told(
        alloc,
        "diamond c_2 -1000000 0 10000 1",
        put(name, Form::Diamond),
    )?;
    edit_is_told(alloc, "link c_2 a B", Edit::Join { name, a, b })?;
    edit_is_told(
        alloc,
        "guide c_2 y 200",
        Edit::Guide {
            name,
            axis,
            at: 200,
        },
    )?;
    is_told(alloc, "apart c_2 x a B 20 least", apart(name, a, b, false))?;
    is_told(alloc, "apart c_2 x B a 20 exact", apart(name, b, a, true))?;
    is_told(alloc, "page c_2 1 -2 600 800 20 soft", page(name, false))?;
    is_told(alloc, "page c_2 1 -2 600 800 20 rigid", page(name, true))
}

fn alignments_are_told(alloc: Global, name: Name, a: Name) -> Result<(), Fail> {
    for (text, line) in [
        ("align c_2 a low a c_2", AlignLine::Low),
        ("align c_2 a mid a c_2", AlignLine::Mid),
        ("align c_2 a high a c_2", AlignLine::High),
    ] {
        is_told(alloc, text, align(alloc, name, a, line)?)?;
    }
    Ok(())
}

fn rows_are_told(alloc: Global, name: Name, a: Name, b: Name) -> Result<(), Fail> {
    let spread = Edit::Spread {
        name,
        axis: Axis::Y,
        gap: 80,
        members: members(alloc, a, b)?,
    };
    edit_is_told(alloc, "spread c_2 y 80 a B", spread)?;
    let rank = Edit::Rank {
        name,
        axis: Axis::X,
        gap: -1,
        members: members(alloc, b, a)?,
    };
    edit_is_told(alloc, "rank c_2 x -1 B a", rank)?;
    let group = Edit::Group {
        name,
        pad: 15,
        members: members(alloc, a, b)?,
    };
    edit_is_told(alloc, "group c_2 15 a B", group)
}

fn changes_are_told(alloc: Global, name: Name) -> Result<(), Fail> {
    edit_is_told(alloc, "size c_2 7 -8", Edit::Size { name, w: 7, h: -8 })?;
    edit_is_told(alloc, "move c_2 -7 8", Edit::Move { name, x: -7, y: 8 })?;
    edit_is_told(alloc, "shift c_2 -5", Edit::Shift { name, at: -5 })?;
    edit_is_told(alloc, "hold c_2", Edit::Hold { name })?;
    edit_is_told(alloc, "free c_2", Edit::Free { name })?;
    edit_is_told(alloc, "remove c_2", Edit::Remove { name })?;
    edit_is_told(alloc, "unlink c_2", Edit::Unlink { name })?;
    edit_is_told(alloc, "drop c_2", Edit::Drop { name })
}

#[test]
fn commands_are_printed_and_read_back(rt: HostRuntime) -> Result<(), Fail> {
    let alloc = rt.alloc();
    let name = Name::of(b"c_2").ok_or("a name")?;
    let a = Name::of(b"a").ok_or("a name")?;
    let b = Name::of(b"B").ok_or("a name")?;
    items_are_told(alloc, name, a, b)?;
    alignments_are_told(alloc, name, a)?;
    rows_are_told(alloc, name, a, b)?;
    changes_are_told(alloc, name)?;
    is_told(alloc, "undo", Command::Undo)?;
    is_told(alloc, "layout", Command::Layout)?;
    is_told(alloc, "where c_2", Command::Where(name))
}
