/// Where a scan of a header's value stands, before one of its bytes (RFC 3261 section 25.1).
#[derive(Clone, Copy)]
pub enum Scan {
    /// At the front of an address, past blanks at most.
    Front,
    /// In a bare URI, in the tokens of a display, or behind a display.
    Word,
    /// In the quoted string of a display.
    Display,
    /// In that string, behind a backslash.
    DisplayEscaped,
    /// In the angle brackets of an address.
    Bracketed,
    /// In parameters, and in all of a Via, outside quoted strings.
    Params,
    /// In a quoted string of a parameter.
    Quoted,
    /// In that string, behind a backslash.
    Escaped,
}
