//! The stacks of a host, and what is known of their modules.

use pam_conf::{ConfError, Files, Kind, Stack};
use pam_facts::known::Tables;
use pam_facts::settings::Setting;
use pam_graph::Graph;
use pam_paths::Known;
use pam_text::Texts;

/// Whose login the tables are asked about. A remote host or terminal that is not given is empty, and so is the user where no table is
/// asked.
#[derive(Clone, Copy)]
pub struct Visitor<'a> {
    pub user: &'a [u8],
    pub rhost: &'a [u8],
    pub tty: &'a [u8],
}

/// What the stacks of a host are found from.
#[derive(Clone, Copy)]
pub struct HostSources<'x> {
    pub files: &'x Files,
    pub visitor: Visitor<'x>,
    /// What gives the answers of modules, the facts included.
    pub tables: &'x Tables<'x>,
    /// Each is for the modules of a name. Of several for one, the last counts.
    pub settings: &'x [Setting<'x>],
}

/// A stack, the answers that its modules may give, and its runs with these.
#[derive(Drop)]
pub struct KnownStack {
    pub stack: Stack,
    pub known: Known,
    pub graph: Graph,
}

/// What is known of the stacks of a class.
#[derive(Drop)]
pub enum ClassStack {
    /// They are refused for this fault.
    Refused(ConfError),
    /// Their runs come to more places than a graph may have.
    TooLarge,
    /// The stack of the first place of the class. The others have the same items, with other files and lines, and the same answers.
    Known(KnownStack),
}

/// Stacks of a kind that have the same items and the same answers, or are refused for the same fault.
#[derive(Drop)]
pub struct StackClass {
    pub kind: Kind,
    pub stack: ClassStack,
}

/// The stack of a service for a kind.
#[derive(Clone, Copy)]
pub struct HostPlace {
    /// The position of the service in the list of services.
    pub service: usize,
    pub kind: Kind,
    /// The position of its class.
    pub class: usize,
}

/// The stacks of a host.
#[derive(Drop)]
pub struct HostStacks {
    /// As `pam_conf::services_in` lists them.
    pub services: Texts,
    /// Each service with each kind, in the order of services and then of kinds.
    pub places: Vec<HostPlace>,
    /// In the order of their first places.
    pub classes: Vec<StackClass>,
}
