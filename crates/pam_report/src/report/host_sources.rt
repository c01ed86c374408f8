//! What the stacks of a host are found from.

ghost use Rattle.std.specs.Prelude.{◌≡◌, map};
ghost use Rattle.pam_facts.specs.known.Tables.{tables_view};
ghost use Rattle.pam_facts.specs.settings.Settings.{setting_view};
ghost use Rattle.pam_policy.specs.host.Sources.{sources_view, visitor_view};
ghost use Rattle.pam_report.specs.Policy.{sources_by, visitor_of};
ghost use Rattle.pam_report.specs.inner.Policy.{fault_of_stacks};

use crate::fault::{Fault, known_fault};
use pam_conf::Files;
use pam_facts::known::Tables;
use pam_facts::settings::Setting;
use pam_policy::host::{HostSources, StacksError, Visitor};
use pam_words::Login;

fn visitor<'x>(login: Login<'x>) -> Visitor<'x>
    ensures { visitor_view result ≡ visitor_of login.entry }
{
    Visitor {
        user: login.user.as_bytes(),
        rhost: login.rhost.as_bytes(),
        tty: login.tty.as_bytes(),
    }
}

/// Returns what the stacks of these files are found from, for a login, with these tables and settings.
pub(super) fn host_sources<'x>(
    files: &'x Files,
    login: Login<'x>,
    settings: &'x [Setting<'x>],
    tables: &'x Tables<'x>,
) -> HostSources<'x>
    ensures { sources_view result ≡ sources_by files.now (visitor_of login.entry) (map setting_view settings.now) (tables_view tables.now) }
{
    HostSources {
        files,
        visitor: visitor(login),
        tables,
        settings,
    }
}

/// Returns the fault for which the stacks of a host are not found.
pub(super) fn stacks_fault(error: StacksError) -> Fault
    ensures { result ≡ fault_of_stacks error }
{
    match error {
        StacksError::Known(error) => known_fault(error),
        StacksError::Memory => Fault::Memory,
    }
}
