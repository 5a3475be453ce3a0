// What is read from and written to, and the lines that are read.
#![tactic(auto)]

mod adapter;
mod held;
pub mod laws;
mod lines;
mod mem;
mod sink;
mod source;

pub use adapter::{ReaderSource, WriterSink};
pub use lines::{Line, LineFault, Lines};
pub use mem::{Mark, MemSink, MemSource};
pub use sink::{Sink, WriteFailed, emit_all};
pub use source::{ReadFailed, Source};
