//! A whole input as texts, in place of files.

use rt_value::{Bytes, List};

/// The texts of a generated input.
pub struct Made {
    /// The definitions of the tables student, reg and room.
    pub schema: Bytes,
    /// The tables' files, in the order of the schema.
    pub files: List<Bytes>,
    /// The students with a course of CS.
    pub query1: Bytes,
    /// The students with just one course of CS.
    pub query2: Bytes,
}

impl Drop for Made {
    fn drop(self) {
        let Made {
            schema: _,
            files: _,
            query1: _,
            query2: _,
        } = self;
    }
}
