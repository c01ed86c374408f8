//! The program's table of facts.

ghost use Rattle.std.specs.Prelude.{◌≡◌};
ghost use Rattle.pam_facts.specs.Table.{facts_text, table_text};
ghost use Rattle.pam_text.specs.Out.{Writes};

use crate::arguments::write_arguments;
use pam_text::{Device, Out};
use std::io::Write;

/// The rows, in the order of names, a row a line; `docs/FACTS.md` has the sources. They are one text and not a list of
/// texts, whose addresses the system would have to set whenever the program starts.
const TABLE: &[u8] = b"\
    pam_abl passes account,password,session module_unknown\n\
    pam_access passes auth,account,password,session success perm_denied user_unknown abort\n\
    pam_afs_session passes account,password module_unknown\n\
    pam_alreadyloggedin passes account,password,session module_unknown\n\
    pam_apparmor passes auth,account,password module_unknown\n\
    pam_barada checks account,password,session module_unknown\n\
    pam_biometric checks account,password,session module_unknown\n\
    pam_canonicalize_user fails account,password,session module_unknown\n\
    pam_cap passes account,password,session module_unknown\n\
    pam_cap autoauth passes auth success account,password,session module_unknown\n\
    pam_ccreds checks account,password,session module_unknown\n\
    pam_ccreds action=store passes account,password,session module_unknown\n\
    pam_ccreds action=update passes account,password,session module_unknown\n\
    pam_cgfs passes auth,account,password module_unknown\n\
    pam_chroot passes\n\
    pam_ck_connector passes auth ignore account,password module_unknown\n\
    pam_cockpit_cert checks account,password,session module_unknown\n\
    pam_cracklib passes auth,account,session module_unknown\n\
    pam_debug passes auth,account,password,session success\n\
    pam_debug acct= passes\n\
    pam_debug auth= passes\n\
    pam_debug chauthtok= passes\n\
    pam_debug open_session= passes\n\
    pam_debug prechauthtok= passes\n\
    pam_deny passes auth,account auth_err password authtok_err session session_err\n\
    pam_duo checks\n\
    pam_echo passes auth,account,password,session success ignore buf_err\n\
    pam_ecryptfs passes account module_unknown\n\
    pam_encfs passes auth ignore auth_err service_err\n\
    pam_env passes auth ignore account,password service_err\n\
    pam_exec passes\n\
    pam_exec expose_authtok checks\n\
    pam_exec type= passes auth,account,session ignore password success ignore\n\
    pam_exec type=account passes auth,session ignore password success ignore\n\
    pam_exec type=auth passes account,session ignore password success ignore\n\
    pam_exec expose_authtok type=auth checks account,session ignore password success ignore\n\
    pam_exec type=open_session passes auth,account ignore password success ignore\n\
    pam_exec type=password passes auth,account,session ignore\n\
    pam_faildelay passes auth ignore account,password,session module_unknown\n\
    pam_faillock passes account success open_err symbol_err service_err system_err buf_err perm_denied \
        cred_insufficient authinfo_unavail user_unknown maxtries new_authtok_reqd acct_expired session_err \
        cred_unavail cred_expired cred_err no_module_data conv_err authtok_err authtok_recover_err \
        authtok_lock_busy authtok_disable_aging try_again ignore abort authtok_expired module_unknown \
        bad_item conv_again password,session module_unknown\n\
    pam_filter passes\n\
    pam_fingwit passes\n\
    pam_fprintd checks account,session module_unknown\n\
    pam_freerdp2 checks account,password module_unknown\n\
    pam_fscrypt passes account module_unknown\n\
    pam_ftp passes account,password,session module_unknown\n\
    pam_gdm passes\n\
    pam_glome checks account,password,session module_unknown\n\
    pam_gnome_keyring passes account module_unknown\n\
    pam_google_authenticator checks account,password,session module_unknown\n\
    pam_google_authenticator nullok ignores account,password,session module_unknown\n\
    pam_group passes auth ignore account,password,session module_unknown\n\
    pam_issue fails account,password,session module_unknown\n\
    pam_keyinit passes auth ignore account,password module_unknown\n\
    pam_krb5 checks\n\
    pam_krb5_migrate_heimdal passes account,password,session module_unknown\n\
    pam_krb5_migrate_mit passes account,password,session module_unknown\n\
    pam_kwallet5 passes account module_unknown\n\
    pam_lastlog passes password module_unknown\n\
    pam_lastlog2 passes auth,account ignore password module_unknown\n\
    pam_ldap checks\n\
    pam_ldap ignore_authinfo_unavail ignores\n\
    pam_ldap ignore_unknown_user ignores\n\
    pam_limits passes auth,account,password module_unknown\n\
    pam_listfile passes auth,account,password,session service_err\n\
    pam_listfile file= passes\n\
    pam_listfile onerr=succeed passes\n\
    pam_localuser passes auth,account,password,session success perm_denied service_err conv_err conv_again abort buf_err system_err user_unknown\n\
    pam_loginuid passes auth,password module_unknown\n\
    pam_mail passes auth ignore account,password module_unknown\n\
    pam_mkhomedir passes auth,account,password module_unknown\n\
    pam_motd fails auth,account,password module_unknown\n\
    pam_mount passes\n\
    pam_mysql checks\n\
    pam_namespace passes auth,account,password module_unknown\n\
    pam_nologin passes auth,account ignore auth_err user_unknown buf_err system_err password,session module_unknown\n\
    pam_nologin successok passes password,session module_unknown\n\
    pam_oath checks account,password,session module_unknown\n\
    pam_oath alwaysok passes account,password,session module_unknown\n\
    pam_otpw checks account,password module_unknown\n\
    pam_p11 checks\n\
    pam_passwdqc passes auth,account,session module_unknown\n\
    pam_permit passes auth,account,password,session success\n\
    pam_pkcs11 checks\n\
    pam_pkcs11 wait_for_card ignores\n\
    pam_poldi checks account,password,session module_unknown\n\
    pam_pwdfile checks account,password,session module_unknown\n\
    pam_pwhistory passes auth,account,session module_unknown\n\
    pam_pwquality passes auth,account,session module_unknown\n\
    pam_python checks\n\
    pam_radius_auth checks\n\
    pam_radius_auth localifdown ignores\n\
    pam_rhosts checks account,password,session module_unknown\n\
    pam_rootok checks auth,account,password success auth_err session module_unknown\n\
    pam_script checks\n\
    pam_script onerr=success passes\n\
    pam_securetty passes password,session module_unknown\n\
    pam_selinux passes auth auth_err account,password module_unknown\n\
    pam_selinux close passes auth auth_err account,password module_unknown session success\n\
    pam_sepermit passes password,session module_unknown\n\
    pam_setquota passes auth,account,password module_unknown\n\
    pam_shells passes password,session module_unknown\n\
    pam_shield passes account,password,session module_unknown\n\
    pam_shishi checks\n\
    pam_ssh checks\n\
    pam_ssh_add passes account,password module_unknown\n\
    pam_ssh_agent_auth checks account,password,session module_unknown\n\
    pam_sss checks\n\
    pam_sss ignore_authinfo_unavail ignores\n\
    pam_sss ignore_unknown_user ignores\n\
    pam_sss_gss checks\n\
    pam_stress passes\n\
    pam_succeed_if passes\n\
    pam_succeed_if use_uid checks\n\
    pam_systemd passes auth,account,password module_unknown\n\
    pam_systemd_home checks\n\
    pam_systemd_loadkey passes account,password,session module_unknown\n\
    pam_tally passes password,session module_unknown\n\
    pam_tally2 passes password,session module_unknown\n\
    pam_time passes auth,password,session module_unknown\n\
    pam_timestamp checks account,password module_unknown\n\
    pam_tmpdir passes\n\
    pam_tty_audit passes auth,account,password module_unknown\n\
    pam_u2f checks account,password,session module_unknown\n\
    pam_u2f nouserok ignores account,password,session module_unknown\n\
    pam_u2f alwaysok passes account,password,session module_unknown\n\
    pam_ufpidentity checks account,password,session module_unknown\n\
    pam_umask passes auth,account,password module_unknown\n\
    pam_unix checks\n\
    pam_userdb checks auth service_err password,session module_unknown\n\
    pam_userdb db= checks password,session module_unknown\n\
    pam_usertype passes auth,account,password,session service_err\n\
    pam_usertype isregular passes\n\
    pam_usertype isregular use_uid checks\n\
    pam_usertype issystem passes\n\
    pam_usertype issystem use_uid checks\n\
    pam_warn passes auth,account,password,session ignore\n\
    pam_wheel passes auth,account ignore perm_denied auth_err user_unknown service_err password,session module_unknown\n\
    pam_wheel trust checks password,session module_unknown\n\
    pam_wheel trust deny passes password,session module_unknown\n\
    pam_winbind checks\n\
    pam_wtmpdb passes password module_unknown\n\
    pam_x2go checks account,password module_unknown\n\
    pam_xauth passes auth,account,password module_unknown\n\
    pam_yubico checks\n\
    pam_yubico nullok ignores\n\
    pam_yubico alwaysok passes\n\
";

/// The table as a facts file, a row a line.
#[tactic(auto, unfolding(crate::specs::Table::table, crate::specs::Table::table_text))]
pub(crate) fn table() -> &'static [u8]
    ensures { result.now ≡ table_text }
{
    TABLE
}

/// Writes the table, and then the arguments that modules know, as a facts file, a row a line.
#[tactic(auto, unfolding(crate::specs::Table::facts_text))]
pub fn write_facts<W: Write>(out: &mut Out<W>) -> Result<(), Device>
    ensures { Writes W.contents out.old out.new result facts_text }
{
    out.put(table())?;
    write_arguments(out)
}
