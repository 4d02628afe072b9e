//! Where bytes come in and go out: sources and sinks that count their faults, over memory and over std.
#![tactic(auto)]

mod listed;
mod reading;
mod sink;
mod slow;
mod source;
mod standard;
mod sure;
mod writing;

pub use listed::{MemSink, MemSource};
pub use reading::{ReadStop, read_all};
pub use sink::{Sink, SinkStop};
pub use slow::{SlowSink, SlowSource};
pub use source::{Failed, Source};
pub use standard::{StdSink, StdSource};
pub use sure::{SureSink, SureSource};
pub use writing::put_all;
