//! What a command ended with, before it is framed.

use rt_io::SureSink;

/// What a command ends with: its status, and what it wrote.
#[derive(Drop)]
pub(crate) struct Ended {
    pub(crate) status: u8,
    pub(crate) out: SureSink,
    pub(crate) err: SureSink,
}
