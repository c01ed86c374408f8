//! The login of a request, as tables see it.

ghost use Rattle.std.specs.Prelude.{◌≡◌, IfOk, map};
ghost use Rattle.std.specs.Char.{to_ascii_lowercase};
ghost use Rattle.pam_report.specs.Answer.{login_in};
ghost use Rattle.pam_tables.specs.Login.{login_view};

use pam_tables::Login;
use std::alloc::{AllocError, Global};

/// Lowercases a service.
pub(super) fn lowered(alloc: Global, service: &str) -> Result<Vec<u8>, AllocError>
    ensures { IfOk result (λ v. v.items ≡ map to_ascii_lowercase service.now) }
{
    service
        .as_bytes()
        .iter()
        .map(|byte| byte.to_ascii_lowercase())
        .collect(alloc)
}

/// Returns the login to a service, which is in lowercase.
pub(super) fn login_to<'a>(service: &'a [u8], login: pam_words::Login<'a>) -> Login<'a>
    ensures { login_view result ≡ login_in service.now login.entry }
{
    Login {
        user: login.user.as_bytes(),
        service,
        tty: login.tty.as_bytes(),
        rhost: login.rhost.as_bytes(),
    }
}
