//! A benchmark of the block solver. It reads a problem, and maybe a hint, from standard input, solves it as many times as its argument
//! says (once with none), prints whether each certificate shows and how many separations were closed, and the times to standard error.
#![tactic(auto)]

ghost use Rattle.vpsc_solve.specs.Stops.{IsFeasible};

mod problems;

use crate::problems::{Posed, spelled};
use cycle_test::{Verdict, test};
use multiplier_check::shows;
use std::io::BufReader;
use std::time::{Duration, Instant};
use std::{env, io};
use units::Problem;
use vpsc_solve::solve_counted_from;

/// The number of rounds: the first argument, 1 where there is none.
fn rounds(rt: &HostRuntime) -> anyhow::Result<u32> {
    let mut words = env::args(rt)?;
    let _program = words.next();
    match words.next() {
        Some(word) => Ok(word.parse::<u32>()?),
        None => Ok(1),
    }
}

/// Solves a problem: how many separations it closed, None where the certificate doesn't show. Adds the time.
fn timed(
    rt: &HostRuntime,
    problem: &Problem,
    hint: &[u16],
    times: &mut Vec<Duration>,
) -> anyhow::Result<Option<u64>>
    requires { IsFeasible problem.now }
{
    let start = Instant::now(rt)?;
    let solution = solve_counted_from(rt.alloc(), problem, hint)?;
    times.push(start.elapsed(rt)?)?;
    if shows(problem, &solution.certificate) {
        return Ok(Some(solution.closings));
    }
    Ok(None)
}

/// The same, None too where no placement satisfies the separations.
fn solve_once(
    rt: &HostRuntime,
    problem: &Problem,
    hint: &[u16],
    times: &mut Vec<Duration>,
) -> anyhow::Result<Option<u64>> {
    let count = problem.desired().len() as u16;
    match test(rt.alloc(), count, problem.seps())? {
        Verdict::Places(_) => return timed(rt, problem, hint, times),
        Verdict::Cycle(_) => return Ok(None),
    }
}

/// Solves so many times, and prints whether each certificate shows, and the closings.
fn measure(
    rt: &HostRuntime,
    posed: &Posed,
    rounds: u32,
    times: &mut Vec<Duration>,
) -> anyhow::Result<()> {
    let mut last = 0;
    for _ in 0..rounds {
        let Some(closings) = solve_once(rt, &posed.problem, &posed.hint, times)? else {
            println!(rt; "shows no")?;
            return Ok(());
        };
        last = closings;
    }
    println!(rt; "shows yes closings {last}")?;
    Ok(())
}

/// Prints the best and the median time, in microseconds, to standard error.
fn print_times(rt: &HostRuntime, times: &mut Vec<Duration>) -> anyhow::Result<()> {
    times.sort()?;
    let Some(best) = times.first() else {
        return Ok(());
    };
    let Some(median) = times.get(times.len() / 2) else {
        return Ok(());
    };
    eprintln!(rt;
        "time_us best {} median {}",
        best.as_micros(),
        median.as_micros()
    )?;
    Ok(())
}

fn main(rt: HostRuntime) -> anyhow::Result<()> {
    let rounds = rounds(&rt)?;
    let reader = BufReader::new(rt.alloc(), rt.reader())?;
    let text = io::read_to_string(rt.alloc(), reader)?;
    let Some(posed) = spelled(rt.alloc(), &text)? else {
        println!(rt; "no problem")?;
        return Ok(());
    };
    let mut times = Vec::new(rt.alloc());
    measure(&rt, &posed, rounds, &mut times)?;
    print_times(&rt, &mut times)
}
