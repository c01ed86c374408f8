//! Reads the settings of `--set`.

ghost use Rattle.std.specs.Prelude.{◌≡◌, map, option_map};
ghost use Rattle.clap.specs.Lexer.{name_and_value};
ghost use Rattle.clap.specs.Words.{found_of, rows_of};
ghost use Rattle.pam_facts.specs.settings.Settings.{setting_view};
ghost use Rattle.pam_words.specs.Settings.{key_in, setting_of, settings_in as settings_in_texts, settings_of};
ghost use Rattle.pam_words.specs.Wanted.{Gives};

use crate::reading::decisions::set_in;
use crate::reading::values;
use crate::wanted::Usage;
use clap::ArgMatches;
use pam_facts::settings::Setting;
use std::alloc::Global;

/// Cuts `KEY=CODES`. Returns `None` if there is no `=`, or the key is empty.
pub(crate) fn key_and_codes(text: &str) -> Option<(&str, &str)>
    ensures { option_map (λ p. (p.0.now, p.1.now)) result ≡ key_in (name_and_value text.now) }
{
    let Some((key, codes)) = text.split_once('=') else {
        return None;
    };
    if key.is_empty() {
        return None;
    }
    Some((key, codes))
}

/// Reads `KEY=CODES`.
fn setting<'a>(text: &'a str) -> Result<Setting<'a>, Usage>
    ensures { Gives setting_view (setting_of text.now) result }
{
    let Some((key, codes)) = key_and_codes(text) else {
        return Err(Usage::SettingForm);
    };
    match set_in(codes.as_bytes()) {
        Some(codes) => Ok(Setting { key, codes }),
        None => Err(Usage::CodeName),
    }
}

/// Reads each text.
fn settings_in<'a>(alloc: Global, texts: &[&'a str]) -> Result<Vec<Setting<'a>>, Usage>
    ensures { Gives (λ v. map setting_view v.items) (settings_in_texts (map (λ s. s.now) texts.now)) result }
{
    let mut settings = Vec::new(alloc);
    for text in texts {
        match setting(text) {
            Ok(setting) => {
                if settings.push(setting).is_err() {
                    return Err(Usage::Memory);
                }
            }
            Err(usage) => return Err(usage),
        }
    }
    Ok(settings)
}

/// Returns the settings, in the order in which they are given.
pub(crate) fn settings<'a>(
    alloc: Global,
    matches: &ArgMatches<'a>,
) -> Result<Vec<Setting<'a>>, Usage>
    ensures { Gives (λ v. map setting_view v.items) (settings_of (rows_of (found_of matches.now))) result }
{
    match values(matches, "set") {
        Some(texts) => settings_in(alloc, texts),
        None => Ok(Vec::new(alloc)),
    }
}
