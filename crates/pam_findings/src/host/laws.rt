//! Laws of the definitions that the contracts cite: each is the contract of an empty function.

ghost use Rattle.pam_findings.specs.host.Laws.{FirstWayLetsIn, LinksAreNotes, OnlyWholesAreTold, SilentHostIsSound, WaysInLetIn};
ghost use Rattle.pam_findings.specs.host.Laws.{WholesAreToldOnce};

/// On a host with no finding at or above warning, each service that was checked has for each kind an accepted stack. Some
/// answers of its modules let somebody in, unless they only deny and warn, or the stack begins with a denial that fails it. If it is
/// one of `auth`, and the service is not that of a greeter, no answers let in anybody whose checks all fail. The last two are not said of
/// a service whose file has no rule of the kind, so that `other` answers, and is one that others include: no program asks for it.
///
/// What is said of a run that asks one module after another is that there is such a run, or that there is none: another run may ask the
/// later module alone.
pub fn a_silent_host_is_sound()
    ensures { SilentHostIsSound }
{}

/// The answers of a way in are ones that the modules may give although each check fails. The stack then asks just these modules, in
/// this order, and decides success.
pub fn a_way_in_lets_in()
    ensures first { FirstWayLetsIn }
    ensures each { WaysInLetIn }
{}

/// S27 is a note, and takes no other finding away.
pub fn links_are_notes()
    ensures { LinksAreNotes }
{}

/// S1 and S2 are told once, at their cause: each stack that has one of them is in exactly one finding of it, and each stack that such a
/// finding names has it.
pub fn wholes_are_told_once()
    ensures once { WholesAreToldOnce }
    ensures only { OnlyWholesAreTold }
{}
