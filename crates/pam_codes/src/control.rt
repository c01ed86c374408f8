//! The control of a rule: its text, and its action for each return code.

ghost use Rattle.std.specs.Prelude.{◌≡◌, ◌<◌, ◌≤◌, ◌∷◌, [], All, IfOk, IfSome, MatchOption, MatchResult, Err, None, Some};
ghost use Rattle.std.specs.Prelude.{false, length, map, slice_get, slice_index_or, unwrap_or};
ghost use Rattle.std.specs.Option.{option_map};
ghost use Rattle.pam_codes.specs.Action.{IsAction};
ghost use Rattle.pam_codes.specs.Code.{all_codes, code_names};
ghost use Rattle.pam_codes.specs.Control.{IsControl, actions_of, bracket_actions, closing_at, control_of, equals_sign as equals_sign_of, fault_of};
ghost use Rattle.pam_codes.specs.inner.Control.{escaped_at, granting_pairs};
ghost use Rattle.pam_codes.specs.Control.{keyword_pairs, pairs_of, token_actions, with_front};
ghost use Rattle.pam_codes.specs.ControlText.{control_text, default_of, keyword_of, list_text, mention, mentions, same_actions};
ghost use Rattle.pam_text.specs.Out.{Writes};
ghost use Rattle.pam_codes.specs.Tokens.{tokens_of};

use crate::action::Action;
use crate::code::{CODES, Code, is_name};
use crate::error::ControlError;
use crate::subject::Subject;
use crate::tokens::Tokens;
use memchr::memchr;
use pam_text::{Device, Out, Piece};
use std::io::Write;
use std::marker::Model;

/// The control of a rule: an action for each of the 31 return codes.
#[derive(Clone, Copy, Debug, PartialEq, Eq)]
pub struct Control {
    actions: [Action; CODES],
}

impl Model for Control {
    ghost use Rattle.std.specs.Prelude.{List};
    ghost use Rattle.pam_codes.specs.declared.action.Action.{Action};
    ghost use Rattle.pam_codes.specs.Control.{IsControl};

    ghost Value = { List Action };

    ghost view = { λ c. c.actions };

    ghost invariant = { λ c. IsControl c.actions };

    ghost inverse = { λ l. record { actions = l } };
}

impl Control {
    /// The action for `code`.
    pub fn action(&self, code: Code) -> Action
        ensures of_code { slice_get self.now code ≡ Some result }
        ensures action { IsAction result }
        ensures control { IsControl self.now }
    {
        self.actions[code.index()]
    }

    /// The control with `granted` for success and new_authtok_reqd, ignore for ignore, and `other` for the other codes.
    #[tactic(auto, unfolding(crate::specs::Control::actions_of, crate::specs::Code::all_codes))]
    fn keyword(granted: Action, other: Action) -> Control
        requires granted { IsAction granted }
        requires other { IsAction other }
        ensures { result ≡ actions_of (granting_pairs granted other) }
    {
        let mut actions = [other; CODES];
        actions[Code::SUCCESS.index()] = granted;
        actions[Code::NEW_AUTHTOK_REQD.index()] = granted;
        actions[Code::IGNORE.index()] = Action::Ignore;
        Control { actions }
    }

    /// The control of a keyword, ignoring ASCII case.
    fn from_keyword(word: &[u8]) -> Option<Control>
        ensures { result ≡ option_map actions_of (keyword_pairs word.now) }
    {
        let (granted, other) = keyword_actions(word)?;
        Some(Control::keyword(granted, other))
    }

    /// The control with the `named` actions, each at the number of its code, and `default` for the other codes.
    pub fn of(named: [Option<Action>; CODES], default: Action) -> Control
        requires named { All (λ action. IfSome action IsAction) named }
        requires default { IsAction default }
        ensures { result ≡ map (λ code. unwrap_or (slice_index_or named code None) default) all_codes }
    {
        let mut actions = [default; CODES];
        for (i, action) in named.iter().enumerate() {
            actions[i] = action.unwrap_or(default);
        }
        Control { actions }
    }

    /// Reads the text between brackets.
    fn from_list(text: &[u8]) -> Result<Control, ControlError>
        ensures { result ≡ token_actions (tokens_of text.now) }
    {
        let mut tokens = Tokens::of(text);
        let mut named = [None; CODES];
        let mut default = None;
        while let Some(word) = tokens.next() {
            let (subject, action) = pair(word, &mut tokens)?;
            match subject {
                Subject::Named(code) => named[code.index()] = Some(action),
                Subject::Incomplete => {}
                Subject::Default => default = default.or(Some(action)),
            }
        }
        Ok(Control::of(named, default.unwrap_or(Action::Bad)))
    }

    /// Reads the text after an opening bracket.
    fn from_brackets(text: &[u8]) -> Result<Control, ControlError>
        ensures { result ≡ bracket_actions text.now }
    {
        Control::from_list(between_brackets(text)?)
    }

    /// Reads a control as it is written, brackets included: pam.conf(5). Fails with the leftmost fault, except that an
    /// open bracket and bytes after the closing one come first.
    #[tactic(auto, unfolding(crate::specs::Control::control_of))]
    pub fn read(text: &[u8]) -> Result<Control, ControlError>
        ensures { result ≡ control_of text.now }
    {
        if !text.is_empty() && text[0] == b'[' {
            return Control::from_brackets(text.split_at(1).1);
        }
        Control::from_keyword(text).ok_or(ControlError::BadControl)
    }

    /// Fails where `read` fails, with the same fault. Faster than `read`, since it keeps no actions.
    #[tactic(auto, unfolding(crate::specs::Control::control_of))]
    pub fn check(text: &[u8]) -> Result<(), ControlError>
        ensures { result ≡ fault_of (control_of text.now) }
    {
        if !text.is_empty() && text[0] == b'[' {
            return check_list(between_brackets(text.split_at(1).1)?);
        }
        match keyword_actions(text) {
            Some(_) => Ok(()),
            None => Err(ControlError::BadControl),
        }
    }

    /// Whether this is `Control::keyword(granted, other)`.
    fn is_keyword(&self, granted: Action, other: Action) -> bool
        requires granted { IsAction granted }
        requires other { IsAction other }
        ensures { result ≡ same_actions (actions_of (granting_pairs granted other)) self.now }
    {
        Control::keyword(granted, other).actions == self.actions
    }

    /// The keyword with these actions, if there is one.
    #[tactic(auto, unfolding(crate::specs::Control::keywords, crate::specs::Control::actions_of, crate::specs::Code::all_codes))]
    fn keyword_name(&self) -> Option<&'static str>
        ensures { MatchOption result (keyword_of self.now ≡ None) (λ word. keyword_of self.now ≡ Some word.now) }
    {
        if self.is_keyword(Action::Ok, Action::Bad) {
            Some("required")
        } else if self.is_keyword(Action::Ok, Action::Die) {
            Some("requisite")
        } else if self.is_keyword(Action::Done, Action::Ignore) {
            Some("sufficient")
        } else if self.is_keyword(Action::Ok, Action::Ignore) {
            Some("optional")
        } else {
            None
        }
    }

    /// The action to write as `default`: that of the last code, `conv_again`.
    fn default_action(&self) -> Action
        ensures value { result ≡ default_of self.now }
        ensures control { IsControl self.now }
    {
        self.actions[Code::CONV_AGAIN.index()]
    }

    /// Writes a pair for each code whose action is not `default`.
    fn write_mentions<W: Write>(&self, default: Action, out: &mut Out<W>) -> Result<(), Device>
        requires { IsControl self.now }
        ensures { Writes W.contents out.old out.new result (mentions default code_names self.now) }
    {
        for number in 0..CODES as u8 {
            let code = Code::of_number(number);
            write_mention(code, self.action(code), default, out)?;
        }
        Ok(())
    }

    /// Writes the pairs in brackets.
    fn write_list<W: Write>(&self, out: &mut Out<W>) -> Result<(), Device>
        ensures { Writes W.contents out.old out.new result (list_text self.now) }
    {
        let default = self.default_action();
        out.put(b"[")?;
        self.write_mentions(default, out)?;
        out.put_line(&[
            Piece::Bytes(b"default="),
            default.piece(),
            Piece::Bytes(b"]"),
        ])
    }

    /// Writes the keyword with these actions. If there is none, writes in brackets a pair for each code whose action is
    /// not that of the last code, and then the default.
    pub fn write_text<W: Write>(&self, out: &mut Out<W>) -> Result<(), Device>
        ensures { Writes W.contents out.old out.new result (control_text self.now) }
    {
        match self.keyword_name() {
            Some(word) => out.put(word.as_bytes()),
            None => self.write_list(out),
        }
    }
}

/// The arguments of `Control::keyword` for a keyword, ignoring ASCII case.
#[tactic(auto, unfolding(crate::specs::Control::keywords, crate::specs::Control::keyword_pairs, crate::specs::Control::actions_of))]
fn keyword_actions(word: &[u8]) -> Option<(Action, Action)>
    ensures value { option_map actions_of (keyword_pairs word.now) ≡ option_map (λ p. actions_of (granting_pairs p.0 p.1)) result }
    ensures actions { IfSome result (λ p. IsAction p.0 × IsAction p.1) }
{
    if is_name(b"required", word) {
        Some((Action::Ok, Action::Bad))
    } else if is_name(b"requisite", word) {
        Some((Action::Ok, Action::Die))
    } else if is_name(b"sufficient", word) {
        Some((Action::Done, Action::Ignore))
    } else if is_name(b"optional", word) {
        Some((Action::Ok, Action::Ignore))
    } else {
        None
    }
}

/// Writes the pair of `code` and a space, unless `action` is `default`.
fn write_mention<W: Write>(
    code: Code,
    action: Action,
    default: Action,
    out: &mut Out<W>,
) -> Result<(), Device>
    ensures { Writes W.contents out.old out.new result (mention default (slice_index_or code_names code []) action) }
{
    if action.is_same(default) {
        return Ok(());
    }
    out.put_line(&[
        Piece::Bytes(code.name().as_bytes()),
        Piece::Bytes(b"="),
        action.piece(),
        Piece::Bytes(b" "),
    ])
}

/// Whether the byte before an index is a backslash.
fn is_escaped(text: &[u8], index: usize) -> bool
    requires { index < length text.now }
    ensures { result ≡ escaped_at text.now index }
{
    index > 0 && text[index - 1] == b'\\'
}

/// The index of the first `]` with no backslash directly before it.
pub fn closing_bracket(text: &[u8]) -> Option<usize>
    ensures found { result ≡ closing_at false text.now }
    ensures bound { IfSome result (λ n. n < length text.now) }
{
    let mut passed = 0;
    let mut rest = text;
    while let Some(index) = memchr(b']', rest) {
        if !is_escaped(rest, index) {
            return Some(passed + index);
        }
        rest = rest.split_at(index + 1).1;
        passed += index + 1;
    }
    None
}

/// The text between brackets, of the text after the opening one.
#[tactic(auto, unfolding(crate::specs::Control::bracket_actions))]
fn between_brackets(text: &[u8]) -> Result<&[u8], ControlError>
    ensures { MatchResult result
        (λ inside. bracket_actions text.now ≡ token_actions (tokens_of inside.now))
        (λ e. bracket_actions text.now ≡ Err e) }
{
    match closing_bracket(text) {
        None => Err(ControlError::OpenBracket),
        Some(len) if len + 1 < text.len() => Err(ControlError::BadControl),
        Some(len) => Ok(&text[..len]),
    }
}

fn equals_sign(token: &[u8]) -> Result<(), ControlError>
    ensures { result ≡ equals_sign_of token.now }
{
    if token == b"=".as_slice() {
        Ok(())
    } else {
        Err(ControlError::BadControl)
    }
}

/// Reads the rest of the pair that begins with `word`.
#[tactic(auto, using(crate::proofs::PairSteps::whole_pair))]
fn pair(word: &[u8], tokens: &mut Tokens) -> Result<(Subject, Action), ControlError>
    ensures pair { MatchResult result
        (λ p. pairs_of (word.now ∷ tokens_of tokens.old.rest.now) ≡ with_front p (pairs_of (tokens_of tokens.new.rest.now)))
        (λ e. pairs_of (word.now ∷ tokens_of tokens.old.rest.now) ≡ Err e) }
    ensures less { length (tokens_of tokens.new.rest.now) ≤ length (tokens_of tokens.old.rest.now) }
    ensures action { IfOk result (λ p. IsAction p.1) }
{
    #[tactic(auto, using(crate::proofs::PairSteps::bad_subject))]
    let subject = Subject::from_name(word)?;
    #[tactic(auto, using(crate::proofs::PairSteps::no_sign))]
    let Some(sign) = tokens.next() else {
        return Err(ControlError::BadControl);
    };
    #[tactic(auto, using(crate::proofs::PairSteps::bad_sign))]
    equals_sign(sign)?;
    #[tactic(auto, using(crate::proofs::PairSteps::no_action))]
    let Some(name) = tokens.next() else {
        return Err(ControlError::BadAction);
    };
    #[tactic(auto, using(crate::proofs::PairSteps::bad_action))]
    let action = Action::from_name(name)?;
    Ok((subject, action))
}

/// Fails where `Control::from_list` fails, with the same fault.
fn check_list(text: &[u8]) -> Result<(), ControlError>
    ensures { result ≡ fault_of (token_actions (tokens_of text.now)) }
{
    let mut tokens = Tokens::of(text);
    while let Some(word) = tokens.next() {
        pair(word, &mut tokens)?;
    }
    Ok(())
}
