//! The stacks that meet a problem.

ghost use Rattle.std.specs.Prelude.{◌≡◌, IfOk, None};
ghost use Rattle.pam_facts.specs.Kinds.{with_kind};
ghost use Rattle.pam_findings.specs.host.inner.Meeting.{also_met};

use pam_conf::Kind;
use pam_facts::Kinds;
use std::alloc::AllocError;

/// These kinds and one more.
fn with_kind(kinds: Kinds, kind: Kind) -> Kinds
    ensures { result ≡ with_kind kind kinds }
{
    let mut more = kinds;
    more.insert(kind);
    more
}

/// The stacks that meet a problem: their kinds, and the number of their services, of which the first two and the last are named
/// by their positions in `HostReport::services`.
#[derive(Clone, Copy, Debug, PartialEq, Eq)]
pub struct Met {
    pub kinds: Kinds,
    pub first: usize,
    pub second: Option<usize>,
    pub last: usize,
    /// The number of services.
    pub services: usize,
}

impl Met {
    /// The stack of a service for a kind, and no other.
    fn one(service: usize, kind: Kind) -> Met
        ensures { result ≡ also_met service kind None }
    {
        Met {
            kinds: with_kind(Kinds::empty(), kind),
            first: service,
            second: None,
            last: service,
            services: 1,
        }
    }

    /// These stacks and one more, where the services come in order. Fails if there are too many services to count.
    pub(crate) fn with(met: Option<Met>, service: usize, kind: Kind) -> Result<Met, AllocError>
        ensures { IfOk result (λ m. m ≡ also_met service kind met) }
    {
        let Some(met) = met else {
            return Ok(Met::one(service, kind));
        };
        let kinds = with_kind(met.kinds, kind);
        if met.last == service {
            return Ok(Met { kinds, ..met });
        }
        let Some(services) = met.services.checked_add(1) else {
            return Err(AllocError);
        };
        Ok(Met {
            kinds,
            first: met.first,
            second: Some(met.second.unwrap_or(service)),
            last: service,
            services,
        })
    }
}
