//! The examples at the end of each command's help, to run in the folder `examples`.

pub(crate) const CHECK: &str = "Examples, in the folder examples:
  pamcheck check --dir host/pam.d
  pamcheck check sudo --dir host/pam.d --with sudo=host/sudo";

pub(crate) const COMPARE: &str = "Examples, in the folder examples:
  pamcheck compare compare/old compare/new
  pamcheck compare compare/old compare/new login auth";

pub(crate) const POLICY: &str = "Examples, in the folder examples:
  pamcheck policy policies/mfa.policy --dir policies/mfa/holds
  pamcheck policy policies/mfa.policy --dir policies/mfa/broken";

pub(crate) const SHOW: &str = "Examples, in the folder examples:
  pamcheck show login auth --dir tree
  pamcheck show sshd --dir sshd/pam.d";

pub(crate) const DECIDE: &str = "Examples, in the folder examples:
  pamcheck decide login auth auth_err auth_err success success --dir tree
  pamcheck decide login auth success ignore success success --dir tree";

pub(crate) const PATHS: &str = "Examples, in the folder examples:
  pamcheck paths sshd auth --dir sshd/pam.d --returns sshd/wrong-password
  pamcheck paths sshd auth --dir sshd/pam.d --decision success";

pub(crate) const OUTCOMES: &str = "Examples, in the folder examples:
  pamcheck outcomes login auth --dir first
  pamcheck outcomes sshd auth --dir sshd/pam.d --returns sshd/ldap-down";

pub(crate) const GRAPH: &str = "Examples, in the folder examples:
  pamcheck graph sshd auth --dir sshd/pam.d --returns sshd/ldap-down --format svg
  pamcheck graph sshd auth --dir sshd/pam.d --returns sshd/ldap-down --format mermaid";

pub(crate) const NEEDS: &str = "Examples, in the folder examples:
  pamcheck needs sshd auth --dir policies/mfa/holds
  pamcheck needs sshd auth --dir sshd/pam.d --returns sshd/ldap-down";

pub(crate) const ACCESS: &str = "Examples, in the folder examples:
  pamcheck access login --access tables/access.conf --group tables/group --user carol
  pamcheck access sshd --access tables/access.conf --user alice --rhost 10.1.2.3";

pub(crate) const TIME: &str = "Examples, in the folder examples:
  pamcheck time games --time tables/time.conf --user alice --at 2024-05-06T07:59
  pamcheck time games --time tables/time.conf --user alice --at-unix 1715000000 --zone CET-1";

pub(crate) const EXPLAIN: &str = "Examples:
  pamcheck explain E15
  pamcheck explain";

pub(crate) const FACTS: &str = "Example:
  pamcheck facts";

pub(crate) const VERSION: &str = "Example:
  pamcheck version";
