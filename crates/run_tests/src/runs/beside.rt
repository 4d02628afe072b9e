//! Runs beside workers, whose outcomes are judged.
use super::judging::{is_right, third_reply};
use super::owned;
use super::rows::READ_BACK;
use super::sessions::{EIGHT_SESSIONS, SESSIONS_AND_WORKERS};
use byte_edge::{SureSink, SureSource};
use command_line::Plan;
use doc_book::{Reply, Spot};
use editor_run::{Outcome, run, run_beside};
use gate_bell::OpenGate;
use std::sync::Wait;
use std::test::Fail;
use std::thread::Threads;

/// Runs by these words over the script, and says whether the outcome is right.
fn judged<R: AllocGlobal + Threads + Wait + Sync>(
    rt: &R,
    words: Vec<String>,
    script: Vec<u8>,
    workers: u8,
    frames: u32,
) -> bool {
    let mut source = SureSource::new(script);
    let mut sink = SureSink::new(rt.alloc());
    let outcome = run(rt, words, &mut source, &mut sink, &OpenGate);
    is_right(&outcome, workers, frames)
}

#[test]
fn sessions_and_workers(rt: HostRuntime) -> Result<(), Fail> {
    let alloc = rt.alloc();
    let words = owned(alloc, &["dunnart", "--workers", "2"])?;
    let script = SESSIONS_AND_WORKERS.to_vec(alloc)?;
    assert!(rt; judged(&rt, words, script, 2, 64));
    Ok(())
}

/// Runs eight sessions beside eight workers, so often, each with at most this many frames before End.
fn eight_beside_eight<R: AllocGlobal + Threads + Wait + Sync>(
    rt: &R,
    times: u32,
) -> Result<(), Fail> {
    let alloc = rt.alloc();
    for _ in 0..times {
        let words = owned(alloc, &["dunnart", "--workers", "8", "--frames", "12"])?;
        if !judged(rt, words, EIGHT_SESSIONS.to_vec(alloc)?, 8, 12) {
            return Err("a right outcome".into());
        }
    }
    Ok(())
}

#[test]
fn eight_sessions_beside_eight_workers(rt: HostRuntime) -> Result<(), Fail> {
    eight_beside_eight(&rt, 100)
}

/// The box stands where it was moved to, at a front that has seen the move.
fn is_read_back(outcome: &Outcome) -> bool {
    match third_reply(outcome) {
        Some(Reply::Answer(answer)) => {
            answer.front >= 2 && answer.spot == Spot::Shape { x: 5, y: 5 }
        }
        _ => false,
    }
}

/// Runs the script that asks for a moved box, beside one worker; whether it is answered where it stands.
fn reads_back<R: AllocGlobal + Threads + Wait + Sync>(rt: &R, script: Vec<u8>) -> bool {
    let plan = Plan {
        workers: 1,
        frames: 64,
        svg: false,
        made: None,
    };
    let mut source = SureSource::new(script);
    let mut sink = SureSink::new(rt.alloc());
    let outcome = run_beside(rt, plan, &mut source, &mut sink, &OpenGate);
    is_right(&outcome, 1, 64) && is_read_back(&outcome)
}

#[test]
fn read_back(rt: HostRuntime) -> Result<(), Fail> {
    let script = READ_BACK.to_vec(rt.alloc())?;
    assert!(rt; reads_back(&rt, script));
    Ok(())
}
