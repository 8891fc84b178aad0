//! Terminals, the letters that the grammars are written over. Readers never see bytes or places.

use crate::fixed::Fixed;
use rt_value::Txt;

/// A name: a word that isn't reserved, or a quoted one.
#[derive(PartialEq, Eq, Debug)]
pub struct Name {
    pub text: Txt,
    pub quoted: bool,
}

impl Drop for Name {
    fn drop(self) {
        let Name { text: _, quoted: _ } = self;
    }
}

/// A token as the grammars see it.
#[derive(PartialEq, Eq, Debug, Drop)]
pub enum Terminal {
    Fixed(Fixed),
    Name(Name),
    Number(i128),
    Str(Txt),
}
