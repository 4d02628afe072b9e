//! What no clause says: worked scripts from bytes to bytes, statuses with their texts, and one failing call of each end.
mod beside;
mod faults;
mod hostile;
mod judging;
mod layouts;
mod orders;
mod rows;
mod scenes;
mod separations;
mod sessions;

use byte_edge::{MemSink, MemSource, Sink, Source, StdSink, StdSource, SureSink, SureSource};
use command_line::Plan;
use editor_run::{Fault, run, run_alone};
use gate_bell::OpenGate;
use layouts::*;
use rows::*;
use scenes::*;
use script_text::{FaultKind, ScriptFault};
use separations::*;
use std::alloc::{AllocError, Global};
use std::io;
use std::sync::Wait;
use std::test::Fail;
use std::thread::Threads;

/// How a run ended.
#[derive(Clone, Copy)]
struct End {
    status: u8,
    fault: Option<Fault>,
}

/// The end of a run.
fn end_of<R: AllocGlobal + Threads + Wait + Sync, S: Source, K: Sink>(
    rt: &R,
    words: Vec<String>,
    source: &mut S,
    sink: &mut K,
) -> End {
    let outcome = run(rt, words, source, sink, &OpenGate);
    End {
        status: outcome.status,
        fault: outcome.fault,
    }
}

/// The end of a run without words over a source and a sink that never fail.
fn played<R: AllocGlobal + Threads + Wait + Sync>(
    rt: &R,
    script: Vec<u8>,
    sink: &mut SureSink,
) -> End {
    let mut source = SureSource::new(script);
    end_of(rt, Vec::new(rt.alloc()), &mut source, sink)
}

/// The status and the text of the fault of a run that must fail.
fn said(alloc: Global, end: End) -> Result<String, Fail> {
    let fault = end.fault.ok_or("a fault")?;
    Ok(format!(in alloc; "{} {fault}", end.status)?)
}

/// Plays the script, which prints the listing.
fn prints<R: AllocGlobal + Threads + Wait + Sync>(
    rt: &R,
    script: &[u8],
    listing: &[u8],
) -> Result<(), Fail> {
    let alloc = rt.alloc();
    let mut sink = SureSink::new(alloc);
    let end = played(rt, script.to_vec(alloc)?, &mut sink);
    if end.status != 0 {
        return Err("status 0".into());
    }
    if sink.bytes() != listing {
        return Err("the listing".into());
    }
    Ok(())
}

#[test]
fn worked_scripts(rt: HostRuntime) -> Result<(), Fail> {
    for (script, listing) in [
        (FIRST_BOX, FIRST_BOX_LISTING),
        (EMPTY, EMPTY_LISTING),
        (TWO_SESSIONS, TWO_SESSIONS_LISTING),
        (ASKED_TWICE, ASKED_TWICE_LISTING),
        (READ_BACK, READ_BACK_LISTING),
        (OUT_OF_RANGE, OUT_OF_RANGE_LISTING),
        (EACH_EDIT, EACH_EDIT_LISTING),
    ] {
        prints(&rt, script, listing)?;
    }
    Ok(())
}

#[test]
fn worked_layouts(rt: HostRuntime) -> Result<(), Fail> {
    for (script, listing) in [
        (TWO_APART, TWO_APART_LISTING),
        (CHAIN_OF_THREE, CHAIN_OF_THREE_LISTING),
        (DROPPED_SEPARATION, DROPPED_SEPARATION_LISTING),
        (FIRST_SEPARATION_ALONE, FIRST_SEPARATION_ALONE_LISTING),
        (HELD_SHAPE, HELD_SHAPE_LISTING),
        (ALIGN_MID, ALIGN_MID_LISTING),
        (LINKED_PAIR, LINKED_PAIR_LISTING),
        (COINCIDENT_PAIR, COINCIDENT_PAIR_LISTING),
        (GROUP, GROUP_LISTING),
        (SOFT_PAGE, SOFT_PAGE_LISTING),
        (MOVED_AFTER_FRAME, MOVED_AFTER_FRAME_LISTING),
        (UNDO, UNDO_LISTING),
        (ASKED_OF_A_LINK, ASKED_OF_A_LINK_LISTING),
    ] {
        prints(&rt, script, listing)?;
    }
    Ok(())
}

/// Whether the bytes have the part somewhere.
fn has(bytes: &[u8], part: &[u8]) -> bool {
    for at in 0..bytes.len() {
        if bytes[at..].starts_with(part) {
            return true;
        }
    }
    false
}

/// Plays the script, whose listing isn't determined, and looks for a part that is.
fn shows<R: AllocGlobal + Threads + Wait + Sync>(
    rt: &R,
    script: &[u8],
    part: &[u8],
) -> Result<(), Fail> {
    let alloc = rt.alloc();
    let mut sink = SureSink::new(alloc);
    let end = played(rt, script.to_vec(alloc)?, &mut sink);
    if end.status != 0 {
        return Err("status 0".into());
    }
    if !has(sink.bytes(), part) {
        return Err("the part".into());
    }
    Ok(())
}

/// Multipliers and walks that may be told in more than one way.
#[test]
fn layouts_with_a_free_part(rt: HostRuntime) -> Result<(), Fail> {
    shows(&rt, TIGHT_CYCLE, b"4 1 6 frame\nx a 0 -5\nx b 0 5\nx #0 ")?;
    shows(
        &rt,
        POSITIVE_CYCLE,
        b"1 5 apart t x b a -9 least = refused 3 infeasible x #",
    )?;
    shows(
        &rt,
        RIGID_PAGE,
        b"1 6 page p 0 0 100 100 0 rigid = refused 4 infeasible x #",
    )?;
    shows(
        &rt,
        RIGID_PAGE,
        b"1 7 page p 0 0 120 100 0 rigid = accepted 4\n",
    )?;
    shows(
        &rt,
        RIGID_PAGE,
        b"6 0 0 frame\nx a 0 0\nx b 40 40\nx c 80 80\nx p.low 0 0\nx p.high 120 120\n",
    )
}

/// The sum by which the long listing is known (the 64 bits of FNV-1a).
fn checksum(bytes: &[u8]) -> u64 {
    let mut sum: u64 = 0xcbf2_9ce4_8422_2325;
    for byte in bytes {
        sum = (sum ^ u64::from(*byte)).wrapping_mul(0x0100_0000_01b3);
    }
    sum
}

#[test]
fn flow_chart(rt: HostRuntime) -> Result<(), Fail> {
    let alloc = rt.alloc();
    let mut sink = SureSink::new(alloc);
    let end = played(&rt, FLOW_CHART.to_vec(alloc)?, &mut sink);
    assert_eq!(rt; end.status, 0);
    assert_eq!(rt; sink.bytes().len(), 26_604);
    assert_eq!(rt; checksum(sink.bytes()), 0x3c0a_9216_25b2_6063);
    Ok(())
}

/// Runs by these words over the script, which prints the text.
fn prints_by<R: AllocGlobal + Threads + Wait + Sync>(
    rt: &R,
    words: &[&str],
    script: &[u8],
    text: &[u8],
) -> Result<(), Fail> {
    let alloc = rt.alloc();
    let mut source = SureSource::new(script.to_vec(alloc)?);
    let mut sink = SureSink::new(alloc);
    let end = end_of(rt, owned(alloc, words)?, &mut source, &mut sink);
    if end.status != 0 {
        return Err("status 0".into());
    }
    if sink.bytes() != text {
        return Err("the text".into());
    }
    Ok(())
}

#[test]
fn outputs_by_the_words(rt: HostRuntime) -> Result<(), Fail> {
    prints_by(&rt, &["dunnart", "--svg"], FIRST_BOX, FIRST_BOX_PICTURE)?;
    prints_by(
        &rt,
        &["dunnart", "--frames", "0"],
        FIRST_BOX,
        NO_FRAMES_LISTING,
    )
}

// The sums of accepted and refused lines and the spans are known from an independent program.
#[test]
fn made_scripts(rt: HostRuntime) -> Result<(), Fail> {
    prints_by(&rt, &["dunnart", "--make", "1"], b"", MADE_ONE)?;
    prints_by(&rt, &["dunnart", "--make=2", "--svg"], b"", MADE_TWO)?;
    prints_by(&rt, &["dunnart", "--make", "3"], b"", MADE_THREE)
}

/// The status of a run without frames before End.
fn status_without_frames<R: AllocGlobal + Threads + Sync>(
    rt: &R,
    source: &mut SureSource,
    sink: &mut SureSink,
) -> u8 {
    let plan = Plan {
        workers: 0,
        frames: 0,
        svg: false,
        made: None,
    };
    run_alone(rt, plan, source, sink).status
}

#[test]
fn no_frames(rt: HostRuntime) -> Result<(), Fail> {
    let alloc = rt.alloc();
    let mut source = SureSource::new(FIRST_BOX.to_vec(alloc)?);
    let mut sink = SureSink::new(alloc);
    assert_eq!(rt; status_without_frames(&rt, &mut source, &mut sink), 0);
    assert_eq!(rt; sink.bytes(), NO_FRAMES_LISTING);
    Ok(())
}

#[test]
fn texts_of_faults(rt: HostRuntime) -> Result<(), Fail> {
    let script = ScriptFault {
        line: 12,
        kind: FaultKind::Fields,
    };
    for (fault, text) in [
        (Fault::Words, "words refused"),
        (Fault::Source, "source failed"),
        (Fault::Script(script), "line 12: Fields"),
        (Fault::Memory, "no memory"),
        (Fault::Sink, "sink failed"),
        (Fault::Long, "input too long"),
    ] {
        assert_eq!(rt; format!(in rt.alloc(); "{fault}")?.as_str(), text);
    }
    Ok(())
}

/// Plays the bytes, which end the run with this status and text; nothing is written.
fn fails<R: AllocGlobal + Threads + Wait + Sync>(
    rt: &R,
    script: Vec<u8>,
    text: &str,
) -> Result<(), Fail> {
    let mut sink = SureSink::new(rt.alloc());
    let end = played(rt, script, &mut sink);
    if said(rt.alloc(), end)?.as_str() != text {
        return Err("the status and the text".into());
    }
    if !sink.bytes().is_empty() {
        return Err("nothing written".into());
    }
    Ok(())
}

#[test]
fn faulty_scripts(rt: HostRuntime) -> Result<(), Fail> {
    let alloc = rt.alloc();
    for (script, text) in [
        (b"dunnart 1\n1 box a 0".as_slice(), "3 line 2: Cut"),
        (FIRST_BOX_WITHOUT_END, "3 line 5: Missing"),
        (b"dunnart 1\n\xff\nend\n", "3 line 2: Session"),
        (b"dunnart 1\n1 layout \nend\n", "3 line 2: Fields"),
        (LARGE_NUMBER, "3 line 2: Fields"),
    ] {
        fails(&rt, script.to_vec(alloc)?, text)?;
    }
    fails(&rt, vec![in alloc; b'a'; 1_048_577]?, "7 input too long")
}

/// Plays the script of two boxes apart over a source and a sink whose listed calls fail, with these words behind the
/// program's name; nothing is written.
fn stops<R: AllocGlobal + Threads + Wait + Sync>(
    rt: &R,
    words: &[&str],
    source_fails: &[u32],
    sink_fails: &[u32],
    text: &str,
) -> Result<(), Fail> {
    let alloc = rt.alloc();
    let mut source = MemSource::new(TWO_APART.to_vec(alloc)?, source_fails.to_vec(alloc)?);
    let mut sink = MemSink::new(sink_fails.to_vec(alloc)?);
    let end = end_of(rt, owned(alloc, words)?, &mut source, &mut sink);
    if said(alloc, end)?.as_str() != text {
        return Err("the status and the text".into());
    }
    if !sink.bytes().is_empty() {
        return Err("nothing written".into());
    }
    Ok(())
}

/// The words as the program has them.
fn owned(alloc: Global, words: &[&str]) -> Result<Vec<String>, AllocError> {
    let mut all = Vec::new(alloc);
    for word in words {
        all.push(String::from_str(alloc, word)?)?;
    }
    Ok(all)
}

#[test]
fn failing_ends(rt: HostRuntime) -> Result<(), Fail> {
    stops(&rt, &["dunnart"], &[1], &[], "4 source failed")?;
    stops(&rt, &["dunnart"], &[], &[1], "6 sink failed")?;
    stops(
        &rt,
        &["dunnart", "--workers", "9"],
        &[1],
        &[1],
        "2 words refused",
    )
}

#[test]
fn real_ends(rt: HostRuntime) -> Result<(), Fail> {
    let mut source = StdSource::new(rt.reader());
    let mut sink = StdSink::new(io::writer(&rt));
    let end = end_of(&rt, Vec::new(rt.alloc()), &mut source, &mut sink);
    // Without an input that can be read the status is 4.
    assert!(rt; end.status == 3 || end.status == 4);
    Ok(())
}
