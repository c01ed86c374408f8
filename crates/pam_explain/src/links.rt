//! What check says of the links of a folder.

ghost use Rattle.std.specs.Prelude.{◌≡◌};
ghost use Rattle.std.specs.List.{slice_get};
ghost use Rattle.std.specs.Option.{option_map};
ghost use Rattle.pam_explain.specs.Links.{of_links};
ghost use Rattle.pam_explain.specs.Views.{explanation_view};

use crate::explanation::{Explanation, Level};

pub const LINK_OUTSIDE: Explanation = Explanation {
    number: "S27",
    name: "LinkOutside",
    level: Level::Note,
    meaning: concat!(
        "A file of the folder of --dir is a link that leads out of this folder. It is\n",
        "read as if it were there, but may be a file that is not meant to be shown to\n",
        "whoever sees the findings. So no finding at it tells a word of it."
    ),
    example: concat!(
        "# login\n",
        "auth required pam_unix.so\n",
        "account required pam_unix.so\n",
        "$ mkdir d; cp other d; ln -s ../login d\n",
        "$ pamcheck check --dir d"
    ),
    linux_pam: "it reads a file wherever a link leads.",
    mending: concat!(
        "copy the file to the folder, if it belongs there, or remove the\n",
        "link. Below --root links lead nowhere but below the root, so the note never\n",
        "comes there."
    ),
};

/// Returns the explanation at this index, or `None` past the last one. They are in the order of their numbers.
pub(crate) fn of_links(row: usize) -> Option<&'static Explanation>
    ensures { option_map (λ e. explanation_view e.now) result ≡ slice_get of_links row }
{
    Some(match row {
        0 => &LINK_OUTSIDE,
        _ => return None,
    })
}
