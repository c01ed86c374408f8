//! Networks: an address and a mask.

ghost use Rattle.std.specs.Prelude.{◌≡◌, ◌≤◌, ◌-◌, IsSome, IsTrue};
ghost use Rattle.pam_tables.specs.Error.{verdict};
ghost use Rattle.pam_tables.specs.Address.{v4_of};
ghost use Rattle.pam_tables.specs.Network.{ones, v4_mask_of, v6_mask_of, is_in_network, network_of, bits_agree};

use crate::address::{Address, numeral, v4};
use crate::error::TableFault;
use crate::pieces::v6;
use pam_text::cut;

/// The addresses that agree with `address` in each bit of `mask`.
#[derive(Clone, Copy, Debug, PartialEq, Eq)]
pub enum Network {
    V4 { address: u32, mask: u32 },
    V6 { address: u128, mask: u128 },
}

fn v4_ones(count: u32) -> u32
    requires { count ≤ 32 }
    ensures { result ≡ ones 32 count }
{
    if count == 0 {
        0
    } else {
        u32::MAX << (32 - count)
    }
}

fn v6_ones(count: u32) -> u128
    requires { count ≤ 128 }
    ensures { result ≡ ones 128 count }
{
    if count == 0 {
        0
    } else {
        u128::MAX << (128 - count)
    }
}

/// Parses an IPv4 mask: a number of bits up to 32, or an address.
#[tactic(auto, unfolding(crate::specs::Network::v4_mask_of))]
fn v4_mask(text: &[u8]) -> Option<u32>
    ensures { result ≡ v4_mask_of text.now }
{
    match numeral(10, 3, text) {
        Some(count) => {
            if count <= 32 {
                Some(v4_ones(count))
            } else {
                None
            }
        }
        None => v4(text),
    }
}

/// Parses an IPv6 mask: a number of bits up to 128, or an address.
#[tactic(auto, unfolding(crate::specs::Network::v6_mask_of))]
fn v6_mask(text: &[u8]) -> Option<u128>
    ensures { result ≡ v6_mask_of text.now }
{
    match numeral(10, 3, text) {
        Some(count) => {
            if count <= 128 {
                Some(v6_ones(count))
            } else {
                None
            }
        }
        None => v6(text),
    }
}

fn v4_agree(first: u32, second: u32, mask: u32) -> bool
    ensures { result ≡ bits_agree 32 first second mask }
{
    first & mask == second & mask
}

fn v6_agree(first: u128, second: u128, mask: u128) -> bool
    ensures { result ≡ bits_agree 128 first second mask }
{
    first & mask == second & mask
}

/// Whether a mask is a prefix length that suits `address`. An IPv6 address takes long to read, so it is not read for this.
fn is_prefix_length_for(mask: &[u8], address: &[u8]) -> bool
    ensures v4 { IsTrue result → IsSome (v4_of address.now) → IsSome (v4_mask_of mask.now) }
    ensures v6 { IsTrue result → IsSome (v6_mask_of mask.now) }
{
    match numeral(10, 3, mask) {
        Some(count) => count <= 32 || (count <= 128 && v4(address).is_none()),
        None => false,
    }
}

impl Network {
    /// Parses an address, a slash and a mask.
    ///
    /// Returns `Ok(None)` if no address comes before the first slash, and `BadMask` if the mask is invalid.
    #[tactic(auto, unfolding(crate::specs::Network::network_of))]
    pub fn read(text: &[u8]) -> Result<Option<Network>, TableFault>
        ensures { result ≡ network_of text.now }
    {
        let (front, after) = match cut(text, b'/') {
            Some(parts) => parts,
            None => return Ok(None),
        };
        match Address::read(front) {
            Some(Address::V4(address)) => match v4_mask(after) {
                Some(mask) => Ok(Some(Network::V4 { address, mask })),
                None => Err(TableFault::BadMask),
            },
            Some(Address::V6(address)) => match v6_mask(after) {
                Some(mask) => Ok(Some(Network::V6 { address, mask })),
                None => Err(TableFault::BadMask),
            },
            None => Ok(None),
        }
    }

    /// Returns the fault that reading the text as a network would return.
    #[tactic(auto, unfolding(crate::specs::Network::network_of))]
    pub(crate) fn check(text: &[u8]) -> Result<(), TableFault>
        ensures { result ≡ verdict (network_of text.now) }
    {
        let (address, mask) = match cut(text, b'/') {
            Some(parts) => parts,
            None => return Ok(()),
        };
        if is_prefix_length_for(mask, address) {
            return Ok(());
        }
        match Network::read(text) {
            Ok(_) => Ok(()),
            Err(fault) => Err(fault),
        }
    }

    /// Whether an address is in the network. An address of the other family is not.
    pub(crate) fn contains(&self, address: Address) -> bool
        ensures { result ≡ is_in_network self.now address }
    {
        match *self {
            Network::V4 {
                address: own,
                mask,
                ..
            } => match address {
                Address::V4(number) => v4_agree(number, own, mask),
                Address::V6(_) => false,
            },
            Network::V6 {
                address: own,
                mask,
                ..
            } => match address {
                Address::V4(_) => false,
                Address::V6(number) => v6_agree(number, own, mask),
            },
        }
    }
}
