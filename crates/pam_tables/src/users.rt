//! The tokens of users, as in access.conf(5).

ghost use Rattle.std.specs.Prelude.{◌≡◌, ◌==◌, ◌&&◌, ◌||◌, Ok};
ghost use Rattle.std.specs.List.{list_any};
ghost use Rattle.std.specs.Option.{option_map};
ghost use Rattle.pam_codes.specs.Code.{same_name};
ghost use Rattle.pam_tables.specs.Error.{verdict};
ghost use Rattle.pam_tables.specs.Groups.{lists_user};
ghost use Rattle.pam_tables.specs.Tokens.{group_name as group_name_of, each_token, plain_user, tokens_of, user_mark, user_token, UserPattern};

use crate::error::TableFault;
use crate::lists::Mark;
use crate::memberships::Memberships;
use crate::tokens::{Matcher, check_tokens};
use pam_codes::is_name;
use pam_text::ByteSet;

/// A user, with the groups that list the user. A plain name may be a group if `by_name`.
#[derive(Clone, Copy)]
pub(crate) struct UserMatcher<'a> {
    pub(crate) memberships: &'a Memberships<'a>,
    pub(crate) by_name: bool,
}

/// Returns the name in parentheses, if the token is one. It is not empty.
fn group_name(token: &[u8]) -> Option<&[u8]>
    ensures { option_map (λ n. n.now) result ≡ group_name_of token.now }
{
    if token.len() > 2 && token.starts_with(b"(") && token.ends_with(b")") {
        Some(token.split_at(1).1.split_at(token.len() - 2).0)
    } else {
        None
    }
}

fn has_at(token: &[u8]) -> bool
    ensures { result ≡ list_any (λ b. b == 64) token.now }
{
    token.contains(&b'@')
}

/// Checks a list of users. Only a token with an `@` can have a fault.
pub(crate) fn check_users(text: &[u8], separators: &ByteSet<'_>) -> Result<(), TableFault>
    ensures { result ≡ verdict (each_token user_token (tokens_of separators.now.bytes.now text.now)) }
{
    if has_at(text) {
        check_tokens::<UserMatcher<'_>>(text, separators)
    } else {
        Ok(())
    }
}

impl<'a> UserMatcher<'a> {
    fn is_named(&self, name: &[u8]) -> bool
        ensures { let m = self.now in
            result ≡ (same_name name.now m.memberships.now.user.now
            || (m.by_name && lists_user m.memberships.now.groups.now name.now m.memberships.now.user.now)) }
    {
        is_name(name, self.memberships.user) || (self.by_name && self.memberships.has(name))
    }

    /// Matches a token that is no name in parentheses.
    fn plain_mark(&self, token: &[u8]) -> Mark
        ensures { let m = self.now in (pattern : UserPattern) → plain_user token.now ≡ Ok pattern
            → result ≡ user_mark m.memberships.now.groups.now m.by_name m.memberships.now.user.now pattern }
    {
        if is_name(b"EXCEPT", token) {
            Mark::Except
        } else if is_name(b"ALL", token) {
            Mark::Match
        } else {
            Mark::of(self.is_named(token))
        }
    }
}

impl<'a> Matcher for UserMatcher<'a> {
    ghost use Rattle.pam_tables.specs.Tokens.{UserPattern, user_token, user_mark};

    ghost Meaning = { UserPattern };

    ghost meant = { user_token };

    ghost marked = { λ m pattern. user_mark m.memberships.now.groups.now m.by_name m.memberships.now.user.now pattern };

    fn check(token: &[u8]) -> Result<(), TableFault>
        ensures { result ≡ verdict (user_token token.now) }
    {
        if token.starts_with(b"@") {
            return Err(TableFault::Netgroup);
        }
        match group_name(token) {
            Some(_) => Ok(()),
            None => {
                if has_at(token) {
                    Err(TableFault::UserAtHost)
                } else {
                    Ok(())
                }
            }
        }
    }

    fn mark(&self, token: &[u8]) -> Mark
        ensures { let m = self.now in (pattern : UserPattern) → user_token token.now ≡ Ok pattern
            → result ≡ user_mark m.memberships.now.groups.now m.by_name m.memberships.now.user.now pattern }
    {
        match group_name(token) {
            Some(name) => Mark::of(self.memberships.has(name)),
            None => self.plain_mark(token),
        }
    }
}
