//! The findings of a host.

ghost use Rattle.std.specs.Prelude.{◌≡◌, IfOk, OnOk, map};
ghost use Rattle.std.specs.Option.{option_map};
ghost use Rattle.pam_findings.specs.host.Links.{WithLinks, told_way};
ghost use Rattle.pam_findings.specs.host.Report.{IsReport};
ghost use Rattle.pam_conf.specs.Services.{checked_services};

use crate::host::beside::Beside;
use crate::host::cut_off::push_cut_off;
use crate::host::folder::put_folder;
use crate::host::known_modules::Modules;
use crate::host::links::{put_links, tell_ways};
use crate::host::met::Met;
use crate::host::own::put_files;
use crate::host::problem::{Place, Problem};
use crate::host::stacks::{Checker, Found};
use crate::host::table::remove_all;
use crate::host::targets::Targets;
use crate::host::way_in::WayIn;
use pam_conf::{Files, NameList, RuleFiles, checked_services};
use pam_facts::Facts;
use pam_text::Texts;
use std::alloc::{AllocError, Global};
use std::collections::BTreeMap;

/// A problem, and the stacks that meet it; `None` for S6, S7, S11 and S27, which are met by none.
#[derive(Clone, Copy, Debug, PartialEq, Eq)]
pub struct Finding {
    pub problem: Problem,
    pub met: Option<Met>,
}

/// What is there of that which rules name, as they write it; `None` where that is not known.
#[derive(Clone, Copy)]
pub struct Installed<'a> {
    /// The paths at which a module is there.
    pub modules: Option<&'a NameList>,
    /// The arguments that name a file which is there.
    pub files: Option<&'a NameList>,
}

/// What is wrong with a host.
#[derive(Drop)]
pub struct HostReport {
    /// The services that were checked, in lowercase.
    pub services: Texts,
    /// The findings, in order, each once.
    pub found: BTreeMap<Place, Finding>,
    /// For each service, by its position, the first way in of its `auth` stack; `Some` where S2 is found, or would be but that the file of
    /// the service is only included.
    pub ways_in: Vec<Option<WayIn>>,
}

impl HostReport {
    /// Checks these services, each for all four kinds; if none is named, every service of the configuration.
    ///
    /// In a folder each file is a service, but for those whose names have a capital letter or are left over (S11). In pam.conf
    /// each service that a rule names is one. If there is none, `other` is checked. Where it is not, the faults of its files and its
    /// walks are met by each stack of their kinds, since Linux-PAM reads them whichever service is asked for. Each file is read once. Takes time in
    /// proportion to the files, and for each rule that the stacks walk to the facts.
    ///
    /// A module that is not there (S5) answers `module_unknown` alone. Where it is not known which modules are there, or the files of which
    /// arguments (S24), each is taken to be there.
    ///
    /// From the position `vendor_start` on the files are those that only the vendor folder has, which no rule is to include (L10). Where
    /// there is no such folder, it is the number of files.
    pub fn of(
        alloc: Global,
        files: &Files,
        vendor_start: usize,
        named: &Texts,
        facts: &Facts<'_>,
        installed: Installed<'_>,
    ) -> Result<HostReport, AllocError>
        ensures services { IfOk result (λ r. r.services ≡ checked_services files.now named.now) }
        ensures report { IfOk result (λ r. IsReport files.now vendor_start named.now facts.now (option_map (λ t. t.now) installed.entry.modules)
            (option_map (λ t. t.now) installed.entry.files) r.found r.ways_in.items) }
    {
        let rules = RuleFiles::read(alloc, files)?;
        let targets = Targets::of(alloc, &rules)?;
        let services = checked_services(alloc, files, &rules, named)?;
        let mut found = Found::nothing(alloc, files.len())?;
        let beside = Beside::of(alloc, &rules, &services)?;
        let modules = Modules::new(facts, installed);
        let checker = Checker {
            alloc,
            files,
            rules: &rules,
            targets: &targets,
            vendor_start,
            beside: &beside,
            modules: &modules,
        };
        let ways_in = checker.add_all(&mut found, &services)?;
        let Found {
            mut table,
            mut asked,
            readers,
            cut_off,
            ..
        } = found;
        push_cut_off(alloc, &mut asked, &rules, cut_off)?;
        remove_all(&mut table, &asked);
        put_files(&checker, &readers, &mut table)?;
        put_folder(&mut table, files, &targets, named)?;
        // The length says that the entries are in order.
        let _count = table.len();
        Ok(HostReport {
            services,
            found: table,
            ways_in,
        })
    }

    /// Adds S27 at the files that are links which lead out of their folder, and takes away the ways in that ask a module of such a file,
    /// so that nothing tells a word of it. `outside` says by the position of each file whether it is one, which the files themselves do
    /// not tell; files past its end are none.
    pub fn add_links(&mut self, outside: &[bool]) -> Result<(), AllocError>
        ensures links { OnOk result (WithLinks outside.now self.old.found self.new.found) }
        ensures services { self.new.services ≡ self.old.services }
        ensures ways_in { self.new.ways_in.items ≡ map (told_way outside.now) self.old.ways_in.items }
    {
        tell_ways(outside, &mut self.ways_in);
        put_links(&mut self.found, outside)?;
        // The length says that the entries are in order.
        let _count = self.found.len();
        Ok(())
    }
}
