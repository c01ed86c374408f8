//! Laws of the definitions that the contracts cite: each is the contract of an empty function.

ghost use Rattle.pam_render.specs.patch_text.Laws.{FilesAreMended};

/// In a file of a patch each line with a mending is then a rule of a module, and no line has a new fault.
pub fn files_are_mended()
    ensures { FilesAreMended }
{}
