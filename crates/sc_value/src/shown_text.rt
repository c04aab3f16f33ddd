//! Texts as people read them: what prints in ASCII as it is, and each other byte escaped.

use crate::Text;
use std::fmt::{Debug, Display, Formatter, Result, Write};

impl Display for Text {
    fn fmt<W: Write>(&self, f: &mut Formatter<W>) -> Result {
        write!(f, "{}", self.as_bytes().escape_ascii())
    }
}

impl Debug for Text {
    fn fmt<W: Write>(&self, f: &mut Formatter<W>) -> Result {
        write!(f, "\"{}\"", self.as_bytes().escape_ascii())
    }
}
