//! What is known of the places of a host.

ghost use Rattle.std.specs.Prelude.{◌≡◌};
ghost use Rattle.pam_render.specs.parts.Policy as spec;
ghost use Rattle.pam_render.specs.parts.PolicyView.{host_view};

use crate::parts::check::text_at;
use crate::parts::policy::told::PolicyHost;
use pam_report::kind_name;

/// Returns the name of the service of the place at a position, empty if there is none.
pub fn service_of_place<'a>(host: &PolicyHost<'a>, position: usize) -> &'a [u8]
    ensures { result.now ≡ spec.service_of_place (host_view host.now) position }
{
    match host.places.get(position) {
        Some(place) => text_at(&host.services, place.service),
        None => b"",
    }
}

/// Returns the name of the kind of the place at a position, empty if there is none.
pub fn kind_of_place(host: &PolicyHost<'_>, position: usize) -> &'static str
    ensures { result.now ≡ spec.kind_of_place (host_view host.now) position }
{
    match host.places.get(position) {
        Some(place) => kind_name(place.kind),
        None => "",
    }
}

/// Whether the stack at a position is of a class.
pub(super) fn is_of_class(host: &PolicyHost<'_>, class: usize, position: usize) -> bool
    ensures { result ≡ spec.is_of_class (host_view host.now) class position }
{
    match host.places.get(position) {
        Some(place) => place.class == class,
        None => false,
    }
}
