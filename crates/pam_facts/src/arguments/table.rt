//! The program's table of arguments.

ghost use Rattle.std.specs.Prelude.{◌≡◌};
ghost use Rattle.pam_facts.specs.declared.arguments.table.TheConstants.{TABLE};

/// A line for each module, in the order of names: `NAME KIND,.. REACTION[@KIND,..] [ARGUMENT ..]`.
///
/// The kinds are those in which the module reads the arguments that name none themselves. The reaction is what it does in the
/// kinds in which it reads arguments, if they are others, with a word that it does not know: it `ignores` it, `logs` it or
/// `fails`; or it is `free` to take any word.
///
/// An argument is `[*][?|~]WORD[:VALUE][!KIND,..][@KIND,..]`. A WORD that ends in `=` is followed by a value. `*`: in any case.
/// `?`: with `=` and anything too. `~`: the module takes each word that begins so for this one. VALUE says which values are right:
/// `number`, `number-or-never`, `octal`, `bool`, or words with `|` between them; without it each value may be. `!`: in these kinds
/// the argument makes the module store passwords by a hash that is broken.
const TABLE: &[u8] = b"\
    pam_abl auth fails debug db_home= host_db= user_db= config= limits= host_rule= user_rule= host_whitelist= \
        user_whitelist= host_purge= user_purge= host_block_cmd= host_clear_cmd= user_block_cmd= user_clear_cmd= \
        host_blk_cmd= host_clr_cmd= user_blk_cmd= user_clr_cmd=\n\
    pam_access auth,account,password,session logs fieldsep= listsep= accessfile= debug nodefgroup noaudit quiet_log \
        nodns\n\
    pam_afs_session auth,session logs ?aklog_homedir:bool ?always_aklog:bool ?debug:bool ?ignore_root:bool \
        ?kdestroy:bool ?nopag:bool ?notokens:bool ?retain_after_close:bool afs_cells= program= minimum_uid=:number\n\
    pam_alreadyloggedin auth ignores ~no_debug ~debug ~no_root restrict_tty= restrict_loggedin_tty=\n\
    pam_apparmor session fails *debug *order=\n\
    pam_barada auth ignores\n\
    pam_biometric auth ignores\n\
    pam_canonicalize_user auth ignores\n\
    pam_cap auth logs debug keepcaps autoauth defer config= default=\n\
    pam_ccreds auth logs use_first_pass try_first_pass service_specific ccredsfile= action=:validate|store|update \
        minimum_uid=:number\n\
    pam_cgfs session free -c\n\
    pam_cgroup session logs debug\n\
    pam_chroot auth,account,password,session logs@auth,account,session debug no_warn no_chroot use_regex \
        use_ext_regex use_groups sec_checks use_first_pass try_first_pass use_mapped_pass notfound=:success|failure \
        onerr=:succeed|fail chroot_dir=\n\
    pam_ck_connector auth,session logs@session debug nox11\n\
    pam_cockpit_cert auth ignores\n\
    pam_debug auth,account,password,session ignores auth= cred= acct= prechauthtok= chauthtok= open_session= \
        close_session=\n\
    pam_deny auth,account,password,session ignores\n\
    pam_duo auth,account,password,session fails@auth conf= debug\n\
    pam_echo auth,account,password,session free file=\n\
    pam_ecryptfs auth,password,session ignores unwrap\n\
    pam_elogind session logs class= type= desktop= debug debug=\n\
    pam_encfs auth,account,password,session ignores\n\
    pam_env auth,account,password,session logs@auth,session debug conffile= envfile= user_envfile= readenv=:number \
        user_readenv=:number\n\
    pam_exec auth,account,password,session free *debug *stdout *seteuid *quiet *quiet_log \
        *expose_authtok@auth,password *log= type=:auth|account|password|open_session|close_session\n\
    pam_faildelay auth logs delay=:number debug\n\
    pam_faillock auth,account logs preauth authfail authsucc conf= dir= deny=:number fail_interval=:number \
        unlock_time=:number-or-never root_unlock_time=:number-or-never admin_group= ?even_deny_root ?audit ?silent \
        ?no_log_info ?local_users_only ?nodelay\n\
    pam_filter auth,account,password,session free debug new_term non_term run1 run2\n\
    pam_fingwit auth,account,password,session ignores debug\n\
    pam_fprintd auth,password ignores debug debug=:on|true|1|off|false|0 max-tries=:number timeout=:number\n\
    pam_freerdp2 auth free\n\
    pam_fscrypt auth,password,session ignores debug lock_policies unlock_only drop_caches\n\
    pam_ftp auth logs debug ignore users=\n\
    pam_gdm auth,account,password,session ignores\n\
    pam_geoip account logs system_file= geoip_db= language= action=:allow|deny|ignore geoip6_db= use_v6= v6_first= \
        charset= ~debug\n\
    pam_glome auth free\n\
    pam_gnome_keyring auth,password,session logs auto_start only_if= use_authtok\n\
    pam_google_authenticator auth fails secret= authtok_prompt= user= allowed_perm=:octal grace_period=:number \
        no_strict_owner debug try_first_pass use_first_pass forward_pass noskewadj no_increment_hotp nullok \
        allow_readonly echo-verification-code echo_verification_code\n\
    pam_group auth ignores\n\
    pam_groupnet session logs lodown rootshared group=\n\
    pam_issue auth ignores issue= noesc\n\
    pam_keyinit auth,session ignores force debug revoke\n\
    pam_krb5 auth,account,password,session logs ?anon_fast:bool ?clear_on_fail:bool ?debug:bool ?defer_pwchange:bool \
        ?expose_account:bool ?fail_pwchange:bool ?force_alt_auth:bool ?force_first_pass:bool ?force_pwchange:bool \
        ?forwardable:bool ?ignore_k5login:bool ?ignore_root:bool ?no_ccache:bool ?no_prompt:bool \
        ?no_update_user:bool ?only_alt_auth:bool ?pkinit_prompt:bool ?prompt_principal:bool ?retain_after_close:bool \
        ?search_k5login:bool ?silent:bool ?try_first_pass:bool ?try_pkinit:bool ?use_authtok:bool \
        ?use_first_pass:bool ?use_pkinit:bool alt_auth_map= banner= realm= user_realm= pkinit_user= ccache= \
        ccache_dir= fast_ccache= keytab= pkinit_anchors= trace= preauth_opt= minimum_uid=:number renew_lifetime= \
        ticket_lifetime=\n\
    pam_krb5_migrate_heimdal auth logs debug keytab= principal= realm= min_uid=:number\n\
    pam_krb5_migrate_mit auth logs debug keytab= principal= realm= min_uid=:number\n\
    pam_kwallet5 auth,password,session ignores kdehome= kwalletd= socketPath= force_run\n\
    pam_lastlog session logs@auth,account,session debug@auth,account,session silent@auth,account,session \
        inactive=:number@auth,account nodate noterm nohost never nowtmp noupdate showfailed unlimited\n\
    pam_lastlog2 auth,account,session logs@session debug silent database= silent_if=\n\
    pam_ldap auth,account,password,session logs use_first_pass try_first_pass nullok use_authtok no_warn \
        ignore_unknown_user ignore_authinfo_unavail debug minimum_uid=:number\n\
    pam_limits session logs debug utmp_early noaudit set_all conf=\n\
    pam_listfile auth,account,password,session logs quiet onerr=:succeed|fail sense=:allow|deny file= \
        item=:user|tty|rhost|ruser|group|shell apply=\n\
    pam_localuser auth,account,password,session logs debug file=\n\
    pam_loginuid account,session ignores require_auditd\n\
    pam_mail auth,session logs debug quiet standard close nopen noenv empty dir= hash=:number\n\
    pam_malcontent account ignores\n\
    pam_mkhomedir session logs silent debug umask=:octal skel=\n\
    pam_motd session logs motd= motd_dir= noupdate\n\
    pam_mount auth,account,password,session logs@auth,password,session *enable_pam_password *disable_pam_password \
        *enable_interactive *disable_interactive *enable_propagate_password *disable_propagate_password *debug\n\
    pam_mysql auth,account,password,session ignores host= where= db= user= passwd= table= update_table= usercolumn= \
        passwdcolumn= statcolumn= logtable= logmsgcolumn= logpidcolumn= logusercolumn= loghostcolumn= \
        logrhostcolumn= logtimecolumn= config_file= crypt= ?md5 ?sqllog ?verbose ?use_323_passwd ?use_first_pass \
        ?try_first_pass ?disconnect_every_op ?debug\n\
    pam_namespace session ignores debug gen_hash ignore_config_error ignore_instance_parent_mode use_current_context \
        use_default_context mount_private unmnt_remnt unmnt_only require_selinux unmount_on_close\n\
    pam_newnet session logs lodown group=\n\
    pam_nologin auth,account logs successok file=\n\
    pam_oath auth ignores debug alwaysok try_first_pass use_first_pass usersfile= digits=:number window=:number\n\
    pam_otpw auth,session ignores debug nolock\n\
    pam_p11 auth,account,password,session free\n\
    pam_passwdqc password fails min= max=:number passphrase=:number match=:number similar=:permit|deny random= \
        wordlist= denylist= filter= config= enforce=:none|users|everyone retry=:number non-unix check_oldauthtok \
        use_first_pass use_authtok noaudit ask_oldauthtok ask_oldauthtok=:update\n\
    pam_permit auth,account,password,session ignores\n\
    pam_pkcs11 auth,account,password,session logs@auth nullok try_first_pass use_first_pass card_only wait_for_card \
        dont_wait_for_card debug nodebug quiet pkcs11_module= ca_dir= crl_dir= nss_dir= config_file= \
        slot_description= slot_num=:number token_type= cert_policy=\n\
    pam_poldi auth free --log-file --auth-method --scdaemon-program --scdaemon-options --debug --modify-environment \
        --quiet\n\
    pam_pwdfile auth free pwdfile pwdfile= flock noflock nodelay debug use_first_pass try_first_pass legacy_crypt\n\
    pam_pwhistory password logs *try_first_pass *use_first_pass *use_authtok *debug *remember=:number *retry=:number \
        *enforce_for_root *authtok_type= *file= conf=\n\
    pam_pwquality password logs debug type= difignore= ~reject_username ~authtok_type authtok_type= ~use_authtok ~use_first_pass \
        ~try_first_pass *difok=:number *minlen=:number *dcredit=:number *ucredit=:number *lcredit=:number \
        *ocredit=:number *minclass=:number *maxrepeat=:number *maxclassrepeat=:number *maxsequence=:number \
        *gecoscheck=:number *dictcheck=:number *usercheck=:number *usersubstr=:number *enforcing=:number \
        *retry=:number *badwords= *dictpath= *enforce_for_root *local_users_only\n\
    pam_python auth,account,password,session free\n\
    pam_radius_auth auth,account,password,session logs@auth,session use_first_pass try_first_pass skip_passwd \
        localifdown ruser debug force_prompt prompt_attribute privilege_level require_message_authenticator conf= \
        retry=:number client_id= prompt= max_challenge=:number ipv4=:yes|no ipv6=:yes|no accounting_bug\n\
    pam_rhosts auth logs debug silent suppress superuser=\n\
    pam_rootok auth,account,password logs debug\n\
    pam_script auth,account,password,session free onerr=:fail|success dir=\n\
    pam_securetty auth,account logs debug noconsole\n\
    pam_selinux auth,session ignores debug verbose close restore open nottys select_context use_current_range \
        env_params\n\
    pam_sepermit auth,account logs debug conf=\n\
    pam_session_timelimit account,session logs path= statepath=\n\
    pam_setquota session ignores bhardlimit=:number bsoftlimit=:number ihardlimit=:number isoftlimit=:number \
        btime=:number itime=:number startuid=:number enduid=:number fs= overwrite=:number debug=:number\n\
    pam_shells auth,account ignores\n\
    pam_shield auth logs debug use_first_pass conf=\n\
    pam_shishi auth,account,password,session ignores debug principal= realm=\n\
    pam_slurm account logs debug no_sys_info no_warn rsh_kludge rlogin_kludge\n\
    pam_slurm_adopt account logs single_job_skip_rpc= ignore_root= disable_x11= action_no_jobs= action_unknown= \
        action_generic_failure= action_adopt_failure= join_container= log_level= nodename= service=\n\
    pam_snapper session logs homeprefix= ignoreservices= ignoreusers= cleanup= debug rootasroot ignoreroot openonly \
        closeonly\n\
    pam_ssh auth,account,password,session logs debug no_warn echo_pass use_first_pass try_first_pass use_mapped_pass \
        try_mapped_pass expose_account allow_blank_passphrase nullok\n\
    pam_ssh_add auth,session logs debug\n\
    pam_ssh_agent_auth auth ignores *~debug *~allow_user_owned_authorized_keys_file *file= *authorized_keys_command= \
        *authorized_keys_command_user= *sudo_service_name=\n\
    pam_sss auth,account,password,session logs forward_pass use_first_pass use_authtok quiet ignore_unknown_user \
        ignore_authinfo_unavail use_2fa allow_missing_name prompt_always try_cert_auth require_cert_auth \
        allow_chauthtok_by_root domains= retry=:number\n\
    pam_sss_gss auth,account,password,session ignores debug\n\
    pam_stress auth,account,password,session logs debug no_warn use_first_pass try_first_pass rootok expired fail_1 \
        fail_2 prelim required\n\
    pam_succeed_if auth,account,password,session free debug use_uid quiet quiet_fail quiet_success audit *login \
        *name *user *uid *gid *shell *home *dir *homedir *service *ruser *rhost *tty\n\
    pam_systemd session logs \
        class=:user|user-early|user-incomplete|user-light|user-early-light|greeter|lock-screen|background|background-light|manager|manager-early|none \
        type=:unspecified|tty|x11|wayland|mir|web desktop= debug debug= default-capability-bounding-set= \
        default-capability-ambient-set=\n\
    pam_systemd_home auth,account,password,session logs suspend= debug debug=\n\
    pam_systemd_loadkey auth logs keyname= debug\n\
    pam_time account logs debug noaudit conffile=\n\
    pam_timestamp auth,session ignores debug timestampdir= timestamp_timeout= verbose\n\
    pam_tmpdir auth,account,password,session ignores\n\
    pam_tty_audit session logs enable= disable= open_only log_passwd\n\
    pam_u2f auth ignores manual nouserok openasuser alwaysok interactive cue nodetect sshformat debug expand \
        max_devices=:number userpresence=:number userverification=:number pinverification=:number authfile= \
        authpending_file= conf= debug_file= origin= appid= prompt= cue_prompt=\n\
    pam_ufpidentity auth free\n\
    pam_umask session logs *debug *usergroups *nousergroups *silent *umask=:octal\n\
    pam_unix auth,account,password,session logs ~audit ~use_first_pass ~try_first_pass authtok_type= ~use_authtok \
        ~shadow ~md5!password ~nullok ~debug ~nodelay ~nis ~bigcrypt!password ~likeauth remember=:number@password \
        ~noreap ~broken_shadow ~sha256 ~sha512 rounds=:number@password ~blowfish minlen=:number@password ~quiet \
        ~no_pass_expiry ~des!password ~gost_yescrypt ~yescrypt ~nullresetok ~obscure ~nullok_secure\n\
    pam_userdb auth,account logs debug *icase *dump *unknown_ok *key_only *use_first_pass *try_first_pass *db= \
        *crypt=\n\
    pam_usernet session logs lodown rootshared group=\n\
    pam_usertype auth,account,password,session logs use_uid audit issystem isregular\n\
    pam_warn auth,account,password,session ignores\n\
    pam_wheel auth,account logs debug trust deny root_only use_uid group=\n\
    pam_winbind auth,account,password,session fails debug *debug_state *silent *use_authtok *try_authtok \
        *use_first_pass *try_first_pass *unknown_ok *krb5_auth *cached_login *mkhomedir *pwd_change_prompt \
        *~require_membership_of=@auth *~require-membership-of=@auth *~krb5_ccache_type= *~warn_pwd_expire=:number\n\
    pam_wtmpdb auth,account,session logs@session debug silent database= skip_if=\n\
    pam_x2go auth free\n\
    pam_xauth session logs debug xauthpath= targetuser=:number systemuser=:number\n\
    pam_yubico auth,account,password,session ignores debug alwaysok verbose_otp try_first_pass use_first_pass nullok \
        always_prompt ldap_starttls ldap_bind_as_user id=:number key= authfile= capath= cainfo= ldap_cacertfile= \
        chalresp_path= debug_file= ldap_clientcertfile= ldap_clientkeyfile= proxy= url= urllist= ldapserver= \
        ldap_uri= ldap_bind_user= ldap_bind_password= ldap_filter= ldapdn= user_attr= yubi_attr= yubi_attr_prefix= \
        token_id_length=:number mode=:challenge-response|client mysql_server= mysql_user= mysql_password= \
        mysql_database= mysql_port=:number\n\
";

/// The table, a module a line.
pub(crate) fn table() -> &'static [u8]
    ensures { result.now ≡ TABLE.now }
{
    TABLE
}
