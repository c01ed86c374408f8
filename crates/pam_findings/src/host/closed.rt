//! Stacks that are closed on purpose.

ghost use Rattle.std.specs.Prelude.{◌≡◌, ◌<◌};
ghost use Rattle.pam_conf.specs.ItemsOf.{items_of, module_text};
ghost use Rattle.pam_dispatch.specs.State.{action_of};
ghost use Rattle.pam_findings.specs.host.Closed.{begins_closed, denial_in, is_denial, is_failure};

use pam_codes::{Action, Code, Control};
use pam_conf::{Item, Kind, Module, Stack};
use pam_facts::module_name;

/// The number of the code that pam_deny answers in a kind.
fn denial_in(kind: Kind) -> u8
    ensures value { result ≡ denial_in kind }
    ensures bound { result < 31 }
{
    match kind {
        Kind::Auth | Kind::Account => 7,
        Kind::Session => 14,
        Kind::Password => 20,
    }
}

fn is_failure(action: Action) -> bool
    ensures { result ≡ is_failure action }
{
    match action {
        Action::Bad | Action::Die => true,
        Action::Ignore | Action::Ok | Action::Done | Action::Reset | Action::Jump(_) => false,
    }
}

/// Whether the code with this number fails the list.
fn fails_with(control: &Control, number: u8) -> bool
    requires { number < 31 }
    ensures { result ≡ is_failure (action_of control.now number) }
{
    match Code::new(number) {
        Some(code) => is_failure(control.action(code)),
        None => false,
    }
}

fn is_denial(module: &Module) -> bool
    ensures { result ≡ is_denial (module_text «module».now) }
{
    match module_name(&module.path) {
        Some(name) => name == b"pam_deny".as_slice(),
        None => false,
    }
}

/// Whether the first of these items is a denial that fails a stack of this kind, whatever comes after.
fn begin_closed(kind: Kind, items: &[Item]) -> bool
    ensures { result ≡ begins_closed kind (items_of items.now) }
{
    match items {
        [Item::Module(module), ..] => {
            is_denial(module) && fails_with(&module.control, denial_in(kind))
        }
        _ => false,
    }
}

/// Whether the first item of a stack is a denial that fails it, whatever comes after: whoever writes this means it.
pub(crate) fn begins_closed(kind: Kind, stack: &Stack) -> bool
    ensures { result ≡ begins_closed kind stack.now }
{
    begin_closed(kind, stack.items())
}
