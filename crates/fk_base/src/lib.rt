//! The ground that every other crate stands on: paths and codes, small list types whose contracts
//! see them as lists, and the three edges to the outside, a source, a sink and a clock.
#![tactic(auto)]

mod bytes;
mod calls;
mod clock;
mod code;
mod config;
mod digits;
mod in_memory;
mod memory;
mod names;
mod numbers;
mod path;
mod path_laws;
mod path_rules;
mod paths;
mod sink;
mod source;
mod standard;
mod text;

pub use bytes::Bytes;
pub use calls::Calls;
pub use clock::{Clock, RealClock, SetClock};
pub use code::Code;
pub use config::Config;
pub use digits::{expected_of, number_below};
pub use in_memory::{MemSink, MemSource};
pub use memory::NoMemory;
pub use names::Names;
pub use numbers::Numbers;
pub use path::{Path, PathFault};
pub use path_laws::{reads_its_text, text_reads_back};
pub use path_rules::is_name;
pub use paths::Paths;
pub use sink::{Put, Sink, WriteAll, write_all};
pub use source::{Got, LIMIT, ReadAll, Source, read_all};
pub use standard::{StdSink, StdSource};
pub use text::Text;
