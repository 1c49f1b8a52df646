//! Literals as they are read.

pub(crate) mod cell;
pub(crate) mod converted;
pub(crate) mod hexadecimal;
pub(crate) mod literal;
pub(crate) mod number;
pub(crate) mod skip;
pub(crate) mod text;
