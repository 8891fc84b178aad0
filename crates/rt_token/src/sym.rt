//! The symbols that the lexer knows; `marks` gives each its terminal.

/// A symbol: `(` `)` `,` `.` `;` `*` `+` `-` `=` `<>` `<` `<=` `>` `>=`, in this order.
#[derive(Clone, Copy, PartialEq, Eq, Debug)]
pub enum Sym {
    Left,
    Right,
    Comma,
    Dot,
    Semi,
    Star,
    Plus,
    Minus,
    Eq,
    Ne,
    Lt,
    Le,
    Gt,
    Ge,
}
