//! The name of the module at a path.

ghost use Rattle.std.specs.Prelude.{◌≡◌, ◌≤◌, ℕ, List};
ghost use Rattle.std.specs.Option.{option_map};
ghost use Rattle.pam_facts.specs.Paths.{common_folder, file_module, machine_folder, module_below, module_name, parts_of};
ghost use Rattle.pam_facts.specs.inner.Paths.{Is};

use crate::folder::Folder;
use pam_text::cut;

/// The name of a file, without `.so`.
fn file_module(file: &[u8]) -> Option<&[u8]>
    ensures { option_map (λ n. n.now) result ≡ file_module file.now }
{
    if file.ends_with(b".so") {
        Some(file.split_at(file.len() - 3).0)
    } else {
        None
    }
}

/// The module at a path below a folder.
fn module_below<'a>(folder: Folder<'a>, path: &'a [u8]) -> Option<&'a [u8]>
    requires { folder.depth ≤ 3 }
    ensures { (names : List (List ℕ)) → Is folder.entry names → option_map (λ n. n.now) result ≡ module_below names (parts_of path.now) }
{
    let mut folder = folder;
    // A slice is far shorter than a number can count, so the depth of the folder never wraps.
    prove!(path.len() < usize::MAX - 4);
    let mut rest = path;
    while let Some((name, after)) = cut(rest, b'/') {
        folder.enter(name);
        rest = after;
    }
    if folder.has_modules() {
        file_module(rest)
    } else {
        None
    }
}

/// The name of the module at a path, without folder and `.so`. A path is that of a module of the system if it leads to a file in
/// a `security` folder of `/lib*`, `/usr/lib*` or a folder as `x86_64-linux-gnu` in one of these, where a relative path begins in
/// such a folder. At any other path there may be any module of that name, so nothing is known of it.
#[tactic(auto, unfolding(crate::specs::Paths::module_name))]
pub fn module_name(path: &[u8]) -> Option<&[u8]>
    ensures { option_map (λ n. n.now) result ≡ module_name path.now }
{
    if path.starts_with(b"/") {
        return module_below(Folder::root(), path);
    }
    match module_below(Folder::common(), path) {
        Some(name) => Some(name),
        None => module_below(Folder::of_machine(), path),
    }
}
