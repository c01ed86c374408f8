//! The time of a week, which entries of times cover or not.

ghost use Rattle.std.specs.Prelude.{◌<◌};

use jiff::civil::DateTime;

/// A day of the week and a minute of the day. Monday is 0.
#[derive(Clone, Copy)]
pub(crate) struct WeekTime {
    pub(crate) day: u8,
    pub(crate) minute: u16,
    ghost within: { day < 7 },
}

impl WeekTime {
    ghost use Rattle.std.specs.Prelude.{◌≡◌};
    ghost use Rattle.jiff.specs.Words.{epoch_day};
    ghost use Rattle.pam_tables.specs.times.Entry.{weekday_of_day};
    ghost use Rattle.pam_tables.specs.times.Times.{minute_of_day};

    pub(crate) fn of(moment: &DateTime) -> Self
        ensures day { result.day ≡ weekday_of_day (epoch_day moment.now.date) }
        ensures minute { result.minute ≡ minute_of_day moment.now }
    {
        WeekTime {
            day: WeekTime::weekday(moment),
            minute: moment.hour() as u16 * 60 + moment.minute() as u16,
        }
    }

    fn weekday(moment: &DateTime) -> u8
        ensures value { result ≡ weekday_of_day (epoch_day moment.now.date) }
        ensures bound { result < 7 }
    {
        moment.weekday().to_monday_zero_offset() as u8
    }
}
