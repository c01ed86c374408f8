//! The tokens of origins, as in access.conf(5).

ghost use Rattle.std.specs.Prelude.{◌≡◌, ◌==◌, ◌||◌, false, Ok};
ghost use Rattle.std.specs.List.{list_any};
ghost use Rattle.std.specs.Option.{option_map_or};
ghost use Rattle.pam_tables.specs.Error.{verdict};
ghost use Rattle.pam_tables.specs.Network.{is_in_network};
ghost use Rattle.pam_tables.specs.Tokens.{OriginPattern, each_token, plain_origin, tokens_of, origin_token};
ghost use Rattle.pam_tables.specs.inner.Tokens.{known_mark};
ghost use Rattle.pam_tables.specs.Tokens.{host_mark as host_mark_of, place_mark as place_mark_of};
ghost use Rattle.pam_tables.specs.Tokens.{ends_with_name as ends_with_name_of, same_address as same_address_of, is_v4 as is_v4_of};

use crate::address::Address;
use crate::error::TableFault;
use crate::lists::Mark;
use crate::login::Origin;
use crate::network::Network;
use crate::tokens::{Matcher, check_tokens};
use pam_codes::is_name;
use pam_text::ByteSet;

fn ends_with_name(text: &[u8], end: &[u8]) -> bool
    ensures { result ≡ ends_with_name_of text.now end.now }
{
    if end.len() > text.len() {
        return false;
    }
    is_name(end, text.split_at(text.len() - end.len()).1)
}

fn same_address(first: Address, second: Address) -> bool
    ensures { result ≡ same_address_of first second }
{
    match first {
        Address::V4(number) => match second {
            Address::V4(other) => number == other,
            Address::V6(_) => false,
        },
        Address::V6(number) => match second {
            Address::V4(_) => false,
            Address::V6(other) => number == other,
        },
    }
}

fn is_address(own: Address, address: Option<Address>) -> bool
    ensures { result ≡ option_map_or (same_address_of own) address false }
{
    match address {
        Some(number) => same_address(own, number),
        None => false,
    }
}

fn is_in(network: Network, address: Option<Address>) -> bool
    ensures { result ≡ option_map_or (is_in_network network) address false }
{
    match address {
        Some(number) => network.contains(number),
        None => false,
    }
}

fn is_v4(address: Option<Address>) -> bool
    ensures { result ≡ is_v4_of address }
{
    match address {
        Some(Address::V4(_)) => true,
        Some(Address::V6(_)) => false,
        None => false,
    }
}

/// Matches a token that is no network against a remote host, whose text writes this address.
fn plain_host_mark(token: &[u8], host: &[u8], address: Option<Address>) -> Mark
    ensures { result ≡ host_mark_of host.now address (plain_origin token.now) }
{
    if is_name(b"EXCEPT", token) {
        Mark::Except
    } else if is_name(b"ALL", token) {
        Mark::Match
    } else if is_name(b"LOCAL", token) {
        Mark::Miss
    } else if token.starts_with(b".") {
        Mark::of(ends_with_name(host, token))
    } else if token.ends_with(b".") {
        Mark::of(is_v4(address) && host.starts_with(token))
    } else {
        match Address::read(token) {
            Some(own) => Mark::of(is_address(own, address)),
            None => Mark::of(is_name(token, host)),
        }
    }
}

/// Matches a token against a remote host, whose text writes this address.
fn host_mark(token: &[u8], host: &[u8], address: Option<Address>) -> Mark
    ensures { (pattern : OriginPattern) → origin_token token.now ≡ Ok pattern → result ≡ host_mark_of host.now address pattern }
{
    match Network::read(token) {
        Ok(Some(network)) => Mark::of(is_in(network, address)),
        Ok(None) => plain_host_mark(token, host, address),
        Err(_) => Mark::Miss,
    }
}

/// Matches a token that is no network against a terminal or a service.
fn plain_place_mark(token: &[u8], place: &[u8]) -> Mark
    ensures { result ≡ place_mark_of place.now (plain_origin token.now) }
{
    if is_name(b"EXCEPT", token) {
        Mark::Except
    } else if is_name(b"ALL", token) {
        Mark::Match
    } else if is_name(b"LOCAL", token) {
        Mark::Match
    } else if token.starts_with(b".") {
        Mark::Miss
    } else if token.ends_with(b".") {
        Mark::Miss
    } else {
        Mark::of(is_name(token, place))
    }
}

/// Matches a token against a terminal or a service.
fn place_mark(token: &[u8], place: &[u8]) -> Mark
    ensures { (pattern : OriginPattern) → origin_token token.now ≡ Ok pattern → result ≡ place_mark_of place.now pattern }
{
    match Network::read(token) {
        Ok(Some(_)) => Mark::Miss,
        Ok(None) => plain_place_mark(token, place),
        Err(_) => Mark::Miss,
    }
}

fn has_at_or_slash(text: &[u8]) -> bool
    ensures { result ≡ list_any (λ b. b == 64 || b == 47) text.now }
{
    text.contains(&b'/') || text.contains(&b'@')
}

/// Checks a list of origins. Only a token with an `@` or a slash can have a fault.
pub(crate) fn check_origins(text: &[u8], separators: &ByteSet<'_>) -> Result<(), TableFault>
    ensures { result ≡ verdict (each_token origin_token (tokens_of separators.now.bytes.now text.now)) }
{
    if has_at_or_slash(text) {
        check_tokens::<Origin<'_>>(text, separators)
    } else {
        Ok(())
    }
}

impl<'a> Matcher for Origin<'a> {
    ghost use Rattle.pam_tables.specs.Tokens.{OriginPattern, origin_token};
    ghost use Rattle.pam_tables.specs.inner.Tokens.{known_mark};

    ghost Meaning = { OriginPattern };

    ghost meant = { origin_token };

    ghost marked = { known_mark };

    #[tactic(auto, unfolding(crate::specs::Tokens::origin_token))]
    fn check(token: &[u8]) -> Result<(), TableFault>
        ensures { result ≡ verdict (origin_token token.now) }
    {
        if token.starts_with(b"@") {
            return Err(TableFault::Netgroup);
        }
        Network::check(token)
    }

    fn mark(&self, token: &[u8]) -> Mark
        ensures { (pattern : OriginPattern) → origin_token token.now ≡ Ok pattern → result ≡ known_mark self.now pattern }
    {
        match *self {
            Origin::Remote(host, address) => host_mark(token, host, address),
            Origin::Local(place) => place_mark(token, place),
        }
    }
}
