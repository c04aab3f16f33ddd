/// An end of lines that is looked for (RFC 3261 section 7): each is CR LF, with or without more.
#[derive(Clone, Copy)]
pub enum Ending {
    /// CR LF, whatever follows.
    Any,
    /// CR LF that no blank follows: a line with its folds ends here (RFC 3261 section 7.3.1).
    Unfolded,
    /// CR LF and a further CR LF: the empty line follows.
    Empty,
}
