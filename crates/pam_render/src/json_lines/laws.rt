//! A law of the definitions that the contracts cite: it is the contract of an empty function.

ghost use Rattle.pam_render.specs.json_lines.Laws.{NoControlByte};

/// No byte of a string is a control byte as JSON counts them, below 32, so none ends a line.
pub fn no_string_ends_a_line()
    ensures { NoControlByte }
{}
