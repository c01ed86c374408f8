//! A folder to which a path leads.

ghost use Rattle.std.specs.Prelude.{◌≡◌, ◌+◌, ◌-◌, ◌^◌, ◌<◌, ◌≤◌, ◌++◌, ◌∷◌, ℕ, [], List, length, map, take};
ghost use Rattle.pam_facts.specs.Paths.{common_folder, entered, has_modules, is_of_libraries, is_of_machine, is_of_usr, is_security};
ghost use Rattle.pam_facts.specs.Paths.{is_triplet, leads_nowhere, machine_folder};
ghost use Rattle.pam_facts.specs.inner.Paths.{Is};

use arrayvec::ArrayVec;
use pam_text::cut;

/// How many names lead from the root to the deepest folder that can have modules of the system.
const MAX_NAMES: usize = 4;

/// A folder: the first names on the way to it from the root, and how many names the way has. The other names need not be kept,
/// since only a path that leads out of these folders would use them.
#[derive(Drop)]
pub(crate) struct Folder<'a> {
    names: ArrayVec<&'a [u8], MAX_NAMES>,
    depth: usize,
}

/// Whether a component of a path changes nothing: it is empty, `.` or `$ISA`.
fn leads_nowhere(name: &[u8]) -> bool
    ensures { result ≡ leads_nowhere name.now }
{
    name.is_empty() || name == b".".as_slice() || name == b"$ISA".as_slice()
}

/// Whether the name of a folder is that of a machine and GNU/Linux, as `x86_64-linux-gnu`.
fn is_triplet(name: &[u8]) -> bool
    ensures { result ≡ is_triplet name.now }
{
    match cut(name, b'-') {
        Some((_, system)) => system.starts_with(b"linux-gnu"),
        None => false,
    }
}

fn is_security(names: &[&[u8]]) -> bool
    ensures { result ≡ is_security (map (λ n. n.now) names.now) }
{
    names.len() == 1 && names[0] == b"security".as_slice()
}

fn is_of_machine(names: &[&[u8]]) -> bool
    ensures { result ≡ is_of_machine (map (λ n. n.now) names.now) }
{
    match names.split_first() {
        Some((name, names)) => is_triplet(name) && is_security(names),
        None => false,
    }
}

/// Whether these names lead from the root to a folder of modules in a folder of libraries.
fn is_of_libraries(names: &[&[u8]]) -> bool
    ensures { result ≡ is_of_libraries (map (λ n. n.now) names.now) }
{
    match names.split_first() {
        Some((name, names)) => {
            name.starts_with(b"lib") && (is_security(names) || is_of_machine(names))
        }
        None => false,
    }
}

fn is_of_usr(names: &[&[u8]]) -> bool
    ensures { result ≡ is_of_usr (map (λ n. n.now) names.now) }
{
    match names.split_first() {
        Some((name, names)) => *name == b"usr".as_slice() && is_of_libraries(names),
        None => false,
    }
}

impl<'a> Folder<'a> {
    pub(crate) fn root() -> Folder<'a>
        ensures names { Is result [] }
        ensures depth { result.depth ≤ 3 }
    {
        Folder {
            names: ArrayVec::new(),
            depth: 0,
        }
    }

    /// A folder of modules.
    pub(crate) fn common() -> Folder<'a>
        ensures names { Is result common_folder }
        ensures depth { result.depth ≤ 3 }
    {
        let mut folder = Folder::root();
        folder.enter(b"lib");
        folder.enter(b"security");
        folder
    }

    /// A folder of modules in one for a machine.
    pub(crate) fn of_machine() -> Folder<'a>
        ensures names { Is result machine_folder }
        ensures depth { result.depth ≤ 3 }
    {
        let mut folder = Folder::root();
        folder.enter(b"lib");
        folder.enter(b"x86_64-linux-gnu");
        folder.enter(b"security");
        folder
    }

    fn push(&mut self, name: &'a [u8])
        requires { self.old.depth + 1 < 2 ^ 64 }
        ensures names { (names : List (List ℕ)) → Is self.old names → Is self.new (names ++ name.now ∷ []) }
        ensures depth { self.new.depth ≡ self.old.depth + 1 }
    {
        if !self.names.is_full() {
            self.names.push(name);
        }
        self.depth += 1;
    }

    /// Leads to the folder in which this one is.
    fn leave(&mut self)
        ensures names { (names : List (List ℕ)) → Is self.old names → Is self.new (take (length names - 1) names) }
        ensures depth { self.new.depth ≤ self.old.depth }
    {
        if self.depth > 0 {
            self.depth -= 1;
            self.names.truncate(self.depth);
        }
    }

    /// Leads on by a name.
    pub(crate) fn enter(&mut self, name: &'a [u8])
        requires { self.old.depth + 1 < 2 ^ 64 }
        ensures names { (names : List (List ℕ)) → Is self.old names → Is self.new (entered names name.now) }
        ensures depth { self.new.depth ≤ self.old.depth + 1 }
    {
        if leads_nowhere(name) {
            return;
        }
        if name == b"..".as_slice() {
            self.leave();
        } else {
            self.push(name);
        }
    }

    /// Whether the folder has modules of the system.
    pub(crate) fn has_modules(&self) -> bool
        ensures { (names : List (List ℕ)) → Is self.now names → result ≡ has_modules names }
    {
        let names = self.names.as_slice();
        self.depth <= MAX_NAMES && (is_of_libraries(names) || is_of_usr(names))
    }
}
