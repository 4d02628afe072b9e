//! Runs of one session beside one worker, each in another order, whose outcomes are judged.
ghost use Rattle.std.specs.Prelude.{◌≤◌};

use super::judging::is_right;
use super::owned;
use byte_edge::{SureSink, SureSource};
use editor_run::run;
use gate_bell::{AFTER_REPLY, AFTER_SOLVING, BEFORE_LOOK, Bell, Gate};
use std::sync::Wait;
use std::test::Fail;
use std::thread::Threads;

const THREE_EDITS: &[u8] = b"dunnart 1
1 box a 0 0 10 10
1 box b 4 0 10 10
1 apart s x a b 20 least
end
";

/// Who waits at the gate, and for whom.
#[derive(Clone, Copy, Debug, PartialEq, Eq)]
enum Order {
    /// The worker, before each look, until the session has its first reply.
    LookBehindReply,
    /// The worker, with a frame made, until the session has its second reply.
    FrameBehindReplies,
    /// The session, behind each reply, until the worker has made a frame.
    ReplyBehindFrame,
    /// Nobody.
    AsItComes,
}

/// A gate at which the session and the worker come in a certain order.
#[derive(Drop)]
struct OrderGate<'a, R> {
    rt: &'a R,
    order: Order,
    replied: Bell,
    solved: Bell,
}

impl<R: Wait> Gate for OrderGate<'_, R> {
    fn arrive(&self, point: u8, _who: u8) {
        if point == AFTER_REPLY {
            self.replied.ring(self.rt);
        }
        if point == AFTER_SOLVING {
            self.solved.ring(self.rt);
        }
        match self.order {
            Order::LookBehindReply => self.hold(point, BEFORE_LOOK, &self.replied, 1),
            Order::FrameBehindReplies => self.hold(point, AFTER_SOLVING, &self.replied, 2),
            Order::ReplyBehindFrame => self.hold(point, AFTER_REPLY, &self.solved, 1),
            Order::AsItComes => {}
        }
    }
}

impl<R: Wait> OrderGate<'_, R> {
    /// Holds who comes to the point `held` until the bell has rung so often, at least once.
    fn hold(&self, point: u8, held: u8, bell: &Bell, rings: u64)
        requires { 1 ≤ rings }
    {
        if point == held {
            let _rings = bell.rest(self.rt, rings - 1);
        }
    }
}

/// Runs the session's three edits beside one worker in this order; whether the outcome is right.
fn is_right_in<R: AllocGlobal + Threads + Wait + Sync>(
    rt: &R,
    words: Vec<String>,
    script: Vec<u8>,
    order: Order,
) -> bool {
    let gate = OrderGate {
        rt,
        order,
        replied: Bell::new(),
        solved: Bell::new(),
    };
    let mut source = SureSource::new(script);
    let mut sink = SureSink::new(rt.alloc());
    let outcome = run(rt, words, &mut source, &mut sink, &gate);
    is_right(&outcome, 1, 64)
}

#[test]
fn orders_of_the_gate(rt: HostRuntime) -> Result<(), Fail> {
    let alloc = rt.alloc();
    for order in [
        Order::LookBehindReply,
        Order::FrameBehindReplies,
        Order::ReplyBehindFrame,
        Order::AsItComes,
    ] {
        let words = owned(alloc, &["dunnart", "--workers", "1"])?;
        let script = THREE_EDITS.to_vec(alloc)?;
        assert!(rt; is_right_in(&rt, words, script, order));
    }
    Ok(())
}
