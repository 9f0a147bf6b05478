// A sheet's file: what kind it is of, and a reader for any kind.
#![tactic(auto)]

mod fault;
mod format;
mod frame;
mod reader;
mod records;

pub use fault::{FileFault, FileKind, RecordFault};
pub use format::Recorded;
pub use frame::kind_of;
pub use reader::{last_stands, read};
