//! Input and output: where bytes come from, and where they go.
//!
//! [`Inputs`] and [`Sink`] are all that the other crates know of the outside. Each object counts
//! its failures. Objects in memory also show their content to contracts; [`HostInputs`] and
//! [`HostSink`], which reach the system's streams and files, don't. [`Lent`] is a sink behind a
//! mutable reference. [`read_all`] reads an input to its end.
#![tactic(auto)]

pub mod host;
pub mod inputs;
pub mod lent;
pub mod outside;
pub mod read;
mod room;
pub mod sinks;
mod stored;

pub use host::{HostInputs, HostSink};
pub use inputs::{MemoryInputs, QuietInputs};
pub use lent::Lent;
pub use outside::{Failed, Inputs, Sink, Which};
pub use read::{ReadError, read_all};
pub use sinks::{MemorySink, QuietSink};
pub use stored::NamedFile;
