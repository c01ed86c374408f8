//! Whether a survey met no fault.

ghost use Rattle.std.specs.Prelude.{◌≡◌, ◌↔◌, [], IsTrue};
ghost use Rattle.pam_conf.specs.Laws.{IsSound};
ghost use Rattle.pam_conf.specs.Survey.{faults_at};
ghost use Rattle.pam_conf.specs.SurveyText.{survey_text};

use crate::rule_files::RuleFiles;
use crate::survey::Survey;

/// Whether a file has no fault of its own.
fn is_faultless(rules: &RuleFiles<'_>, file: usize) -> bool
    ensures { IsTrue result ↔ (faults_at rules.now file ≡ []) }
{
    match rules.faults(file) {
        Some(faults) => faults.is_empty(),
        None => true,
    }
}

/// Whether a survey has no fault, of the walk and of each file that it reached.
pub fn is_sound(rules: &RuleFiles<'_>, survey: &Survey) -> bool
    ensures { IsTrue result ↔ IsSound rules.now (survey_text survey.now) }
{
    if !survey.faults.is_empty() {
        return false;
    }
    for file in &survey.reached {
        if !is_faultless(rules, *file) {
            return false;
        }
    }
    true
}
