//! Which names of files are services.

ghost use Rattle.std.specs.Prelude.{◌≡◌, map};
ghost use Rattle.std.specs.List.{list_any, starts_with};
ghost use Rattle.pam_conf.specs.Services.{ends, has_capital, has_text, is_left_over, is_service, left_ends};

/// Whether a name has a capital letter.
pub fn has_capital(name: &[u8]) -> bool
    ensures { result ≡ has_capital name.now }
{
    name.iter().any(|byte| byte.is_ascii_uppercase())
}

/// Whether a text is somewhere in a name.
fn has_text(text: &[u8], name: &[u8]) -> bool
    ensures { result ≡ has_text text.now name.now }
{
    for start in 0..name.len() {
        if name[start..].starts_with(text) {
            return true;
        }
    }
    false
}

/// The suffixes of copies that editors and packages leave.
static LEFT_ENDS: [&[u8]; 19] = [
    b"~",
    b".bak",
    b".old",
    b".orig",
    b".save",
    b".tmp",
    b".swp",
    b".swo",
    b".rpmnew",
    b".rpmsave",
    b".rpmorig",
    b".pacnew",
    b".pacsave",
    b".ucf-dist",
    b".ucf-old",
    b".ucf-new",
    b".pam-old",
    b".pam-new",
    b".distrib",
];

#[tactic(auto, unfolding(crate::specs::Services::left_ends))]
fn left_ends() -> &'static [&'static [u8]]
    ensures { map (λ end. end.now) result.now ≡ left_ends }
{
    &LEFT_ENDS
}

/// Whether a name has one of these suffixes.
fn has_end(texts: &[&[u8]], name: &[u8]) -> bool
    ensures { result ≡ list_any (λ end. ends name.now end.now) texts.now }
{
    texts.iter().any(|end| name.ends_with(end))
}

fn has_left_end(name: &[u8]) -> bool
    ensures { result ≡ list_any (ends name.now) left_ends }
{
    has_end(left_ends(), name)
}

/// Whether a name is that of a copy which an editor or a package left.
pub fn is_left_over(name: &[u8]) -> bool
    ensures { result ≡ is_left_over name.now }
{
    name.starts_with(b".")
        || name.starts_with(b"#") && name.ends_with(b"#")
        || has_text(b".dpkg-", name)
        || has_left_end(name)
}

/// Whether a file of a folder is a service.
pub fn is_service(name: &[u8]) -> bool
    ensures { result ≡ is_service name.now }
{
    !is_left_over(name) && !has_capital(name)
}
