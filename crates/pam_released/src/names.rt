//! The name of a module.

ghost use Rattle.std.specs.Prelude.{◌≡◌};
ghost use Rattle.pam_released.specs.Findings.{after_last_slash, before_last_dot, is_no_name, module_name};

/// The name of the module with this path: of its file, without the extension.
pub(crate) fn module_name(path: &[u8]) -> &[u8]
    ensures { result.now ≡ module_name path.now }
{
    before_last_dot(after_last_slash(path))
}

fn after_last_slash(path: &[u8]) -> &[u8]
    ensures { result.now ≡ after_last_slash path.now }
{
    let mut front = path;
    while let Some((last, before)) = front.split_last() {
        if *last == b'/' {
            return path.split_at(front.len()).1;
        }
        front = before;
    }
    path
}

fn before_last_dot(name: &[u8]) -> &[u8]
    ensures { result.now ≡ before_last_dot name.now }
{
    let mut front = name;
    while let Some((last, before)) = front.split_last() {
        if *last == b'.' {
            return before;
        }
        front = before;
    }
    name
}

/// Whether a name is empty or a lone `?`.
pub(crate) fn is_no_name(name: &[u8]) -> bool
    ensures { result ≡ is_no_name name.now }
{
    name.is_empty() || name == b"?".as_slice()
}
