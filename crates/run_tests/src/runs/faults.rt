//! The flow chart over sources and sinks of which one call fails, and over those that move a few bytes a call.
ghost use Rattle.std.specs.Prelude.{◌≤◌};

use super::*;
use byte_edge::{SlowSink, SlowSource};

/// The status of a run alone.
fn status_alone<R: AllocGlobal + Threads + Sync, S: Source, K: Sink>(
    rt: &R,
    source: &mut S,
    sink: &mut K,
) -> u8 {
    let plan = Plan {
        workers: 0,
        frames: 64,
        svg: false,
        made: None,
    };
    run_alone(rt, plan, source, sink).status
}

/// A sink with the whole output of the flow chart.
fn whole_output<R: AllocGlobal + Threads + Sync>(rt: &R) -> Result<SureSink, Fail> {
    let alloc = rt.alloc();
    let mut source = SureSource::new(FLOW_CHART.to_vec(alloc)?);
    let mut sink = SureSink::new(alloc);
    if status_alone(rt, &mut source, &mut sink) != 0 {
        return Err("status 0".into());
    }
    Ok(sink)
}

/// Whether the run goes through whose read of this number fails. If not, it ends with status 4 and nothing is written.
fn passes_reading<R: AllocGlobal + Threads + Sync>(
    rt: &R,
    call: u32,
    whole: &[u8],
) -> Result<bool, Fail> {
    let alloc = rt.alloc();
    let mut source = MemSource::new(FLOW_CHART.to_vec(alloc)?, [call].to_vec(alloc)?);
    let mut sink = SureSink::new(alloc);
    let status = status_alone(rt, &mut source, &mut sink);
    if status == 0 && sink.bytes() == whole {
        return Ok(true);
    }
    if status == 4 && sink.bytes().is_empty() {
        return Ok(false);
    }
    Err("the whole output, or status 4 and nothing".into())
}

/// Whether the run goes through whose write of this number fails. If not, it ends with status 6, and a part of the output
/// is written, from the front.
fn passes_writing<R: AllocGlobal + Threads + Sync>(
    rt: &R,
    call: u32,
    whole: &[u8],
) -> Result<bool, Fail> {
    let alloc = rt.alloc();
    let mut source = SureSource::new(FLOW_CHART.to_vec(alloc)?);
    let mut sink = MemSink::new([call].to_vec(alloc)?);
    let status = status_alone(rt, &mut source, &mut sink);
    if status == 0 && sink.bytes() == whole {
        return Ok(true);
    }
    if status == 6 && sink.bytes().len() < whole.len() && whole.starts_with(sink.bytes()) {
        return Ok(false);
    }
    Err("the whole output, or status 6 and a front part".into())
}

/// The first calls fail, each in a run of its own, until a run goes through.
#[test]
fn each_read_fails(rt: HostRuntime) -> Result<(), Fail> {
    let whole = whole_output(&rt)?;
    for call in 1..1_000 {
        if passes_reading(&rt, call, whole.bytes())? {
            assert!(rt; call > 1);
            return Ok(());
        }
    }
    Err("a run that goes through".into())
}

#[test]
fn each_write_fails(rt: HostRuntime) -> Result<(), Fail> {
    let whole = whole_output(&rt)?;
    for call in 1..1_000 {
        if passes_writing(&rt, call, whole.bytes())? {
            assert!(rt; call > 1);
            return Ok(());
        }
    }
    Err("a run that goes through".into())
}

/// The run whose reads and writes move at most `step` bytes each writes the same.
fn same_in_steps<R: AllocGlobal + Threads + Sync>(
    rt: &R,
    step: u32,
    whole: &[u8],
) -> Result<(), Fail>
    requires { 1 ≤ step }
{
    let alloc = rt.alloc();
    let mut source = SlowSource::new(FLOW_CHART.to_vec(alloc)?, step);
    let mut sink = SlowSink::new(alloc, step);
    if status_alone(rt, &mut source, &mut sink) != 0 {
        return Err("status 0".into());
    }
    if sink.bytes() != whole {
        return Err("the whole output".into());
    }
    Ok(())
}

#[test]
fn slow_ends(rt: HostRuntime) -> Result<(), Fail> {
    let whole = whole_output(&rt)?;
    same_in_steps(&rt, 1, whole.bytes())?;
    same_in_steps(&rt, 2, whole.bytes())?;
    same_in_steps(&rt, 7, whole.bytes())?;
    same_in_steps(&rt, 4_096, whole.bytes())
}
