//! The `time` command: the line of a time table that denies.

ghost use Rattle.std.specs.Prelude.{◌≡◌, IfErr, Ok, Result, is_some, true, false};
ghost use Rattle.pam_tables.specs.times.Login.{login_view};
ghost use Rattle.pam_report.specs.Answer.{login_at, timed, with_rules};
ghost use Rattle.pam_report.specs.inner.Answer.{FindsTime};
ghost use Rattle.pam_report.specs.Finds.{Finds};
ghost use Rattle.pam_report.specs.Memory.{IsWanting, WantsOnly, of_tables};
ghost use Rattle.pam_report.specs.Moments.{IsGivenMoment, IsMoment};
ghost use Rattle.pam_report.specs.Inputs.{time_given};
ghost use Rattle.pam_tables.specs.times.Reading.{rules_of};

use super::login::{login_to, lowered};
use super::replies::Reply;
use crate::fault::Fault;
use crate::inputs::Inputs;
use jiff::civil::DateTime;
use pam_tables::times::{Login, MomentError, TimeAnswer, TimeTable, civil, moment};
use pam_words::Moment;
use std::alloc::Global;

/// Returns the civil time of a moment.
pub(super) fn moment_of(wanted: Moment<'_>) -> Result<DateTime, MomentError>
    ensures { IsMoment wanted.entry result }
{
    match wanted {
        Moment::Civil(text) => civil(text.as_bytes()),
        Moment::Instant { seconds, zone } => moment(seconds, zone),
    }
}

/// Like `moment_of`, for a moment that may be missing.
pub(super) fn given_moment(moment: Option<Moment<'_>>) -> Option<Result<DateTime, MomentError>>
    ensures moment { IsGivenMoment moment.entry result }
    ensures given { is_some result ≡ is_some moment.entry }
{
    match moment {
        Some(moment) => Some(moment_of(moment)),
        None => None,
    }
}

/// Looks up a login at a moment in the time table.
fn look_up(
    alloc: Global,
    login: &Login<'_>,
    moment: &DateTime,
    bytes: &[u8],
) -> Result<TimeAnswer, Fault>
    ensures answer { FindsTime result (with_rules (login_view login.now) moment.now (rules_of bytes.now)) }
    ensures wants { IfErr result (IsWanting (of_tables false false true)) }
{
    match TimeTable::read(alloc, bytes) {
        Ok(table) => Ok(table.decide(login, moment)),
        Err(error) => Err(Fault::Time(error)),
    }
}

fn answer_login<'a>(
    alloc: Global,
    login: &Login<'_>,
    moment: &DateTime,
    bytes: &[u8],
) -> Result<Reply<'a>, Fault>
    ensures answer { Finds result (λ answer. with_rules (login_view login.now) moment.now (rules_of bytes.now) ≡ answer) }
    ensures wants { WantsOnly (of_tables false false true) result }
{
    match look_up(alloc, login, moment, bytes) {
        Ok(answer) => Ok(Reply::Time(answer)),
        Err(fault) => Err(fault),
    }
}

/// Looks up the login of a request at a moment in the time table.
pub(super) fn answer_time<'a>(
    alloc: Global,
    service: &str,
    login: pam_words::Login<'_>,
    moment: Result<DateTime, MomentError>,
    inputs: &Inputs,
) -> Result<Reply<'a>, Fault>
    ensures answer { Finds result (λ answer. timed (login_at service.now login.entry) (time_given inputs.now) moment ≡ answer) }
    ensures wants { WantsOnly (of_tables false false true) result }
{
    let moment = match moment {
        Ok(moment) => moment,
        Err(error) => return Err(Fault::Moment(error)),
    };
    match lowered(alloc, service) {
        Ok(service) => answer_login(
            alloc,
            &login_to(&service, login),
            &moment,
            inputs.time_table(),
        ),
        Err(_) => Err(Fault::Memory),
    }
}
