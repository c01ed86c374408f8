//! Laws of the definitions that the contracts cite: each is the contract of an empty function.

ghost use Rattle.pam_policy.specs.search.Laws.{GraphsOfPrograms, MoreAllowedFinds, MostTogether, OneWitness};

/// The graph of a program is that of its stack.
pub fn graphs()
    ensures { GraphsOfPrograms }
{}

/// What is found where less is allowed is found where more is; and there is at most one witness.
pub fn witnesses()
    ensures more { MoreAllowedFinds }
    ensures one { OneWitness }
{}

/// At most four events can be wanted together.
pub fn limit()
    ensures { MostTogether }
{}
