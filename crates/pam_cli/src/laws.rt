//! Laws of the definitions that the contracts cite: each is the contract of an empty function.

ghost use Rattle.pam_cli.specs.PasswdLaws.{PrimaryMembersAreListed};

/// With a passwd file, the members of a group are those of its line and the users whose lines have its number, and nobody else is.
pub fn primary_members()
    ensures { PrimaryMembersAreListed }
{}
