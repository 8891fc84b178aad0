//! What both languages end in and evaluation begins with: a query with its columns.

ghost use Rattle.std.specs.Prelude.{◌≡◌, length};

use crate::query::Query;
use rt_schema::ColKind;
use rt_value::{Boxed, List, Txt};

/// A query with the kinds, bounds and names of its columns, one entry a column. No whole number
/// in a column is larger in size than the column's bound.
pub struct Typed {
    pub query: Boxed<Query>,
    pub kinds: List<ColKind>,
    pub bounds: List<u128>,
    pub names: List<Option<Txt>>,
}

impl Drop for Typed {
    fn drop(self) {
        let Typed {
            query: _,
            kinds: _,
            bounds: _,
            names: _,
        } = self;
    }
}

impl Typed {
    /// The number of columns.
    pub fn width(&self) -> usize
        ensures { result ≡ length self.now.kinds }
    {
        self.kinds.len()
    }

    /// The query without its columns.
    pub fn into_query(self) -> Boxed<Query>
        ensures { result ≡ self.query }
    {
        let Typed {
            query,
            kinds: _,
            bounds: _,
            names: _,
        } = self;
        query
    }
}
