//! Laws of the definitions that the contracts cite: each is the contract of an empty function.

ghost use Rattle.pam_drawing.specs.Laws.{DotReadsLabels, MermaidLabelsArePlain, TextsArePlain};

/// No name of a module or service ends the quotes of its label, whatever its bytes are.
pub fn labels()
    ensures dot { DotReadsLabels }
    ensures mermaid { MermaidLabelsArePlain }
{}

/// In XML no name of a module or service ends its element or begins another one, whatever its bytes are.
pub fn texts()
    ensures plain { TextsArePlain }
{}
