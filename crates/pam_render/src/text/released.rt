//! The `show` command with `--as`: the rules of a file, as a release reads them.

ghost use Rattle.std.specs.Prelude.{◌≡◌, ◌++◌, codes, map};
ghost use Rattle.std.specs.List.{flat_map};
ghost use Rattle.std.specs.Option.{option_map};
ghost use Rattle.pam_codes.specs.Out.{Writes, WritesAndFlushes};
ghost use Rattle.pam_conf.specs.Rule.{body_view};
ghost use Rattle.pam_released.specs.Readings.{failing_view, numbered_view, reading_view, rule_view};
ghost use Rattle.pam_report.specs.ReplyViews.{released_view};
ghost use Rattle.pam_render.specs.text.Released.{body_text, count_text, include_text, kind_front, kind_text, module_words, reading_text, release_front, release_text};
ghost use Rattle.pam_render.specs.text.WordText.{shown_word_text};
ghost use Rattle.pam_render.specs.text.Released.{failing_text, released_text, released_texts, rule_line, rule_lines, rule_text, service_text, shown_words};

use crate::text::header::put_lowercase;
use crate::text::word::put_shown_word;
use pam_codes::{Control, Device, Out, Piece};
use pam_conf::{Body, Kind};
use pam_released::{FailingRule, LineRule, NumberedReading, Reading};
use pam_report::{ReleasedReply, kind_name};
use pam_text::Texts;
use pam_words::ReleaseName;
use std::io::Write;

fn release_text(release: ReleaseName) -> &'static [u8]
    ensures { result.now ≡ release_text release }
{
    match release {
        ReleaseName::LinuxPam15 => b"linux-pam-1.5",
        ReleaseName::LinuxPam17 => b"linux-pam-1.7",
    }
}

/// Writes the number of the rules, or that the file is refused.
fn put_count<W: Write>(rules: &Option<Vec<NumberedReading>>, out: &mut Out<W>) -> Result<(), Device>
    ensures { Writes W.contents out.old out.new result (count_text (option_map (λ rules. map numbered_view rules.items) rules.now)) }
{
    match rules {
        None => out.put(b" refused\n"),
        Some(rules) => out.put_line(&[
            Piece::Bytes(b" "),
            Piece::Number(rules.len() as u64),
            Piece::Bytes(b" rules\n"),
        ]),
    }
}

/// Writes the first line of a kind, up to the number of the rules.
#[tactic(auto, unfolding(crate::specs::text::Released::release_front))]
fn put_release_front<W: Write>(reply: &ReleasedReply<'_>, out: &mut Out<W>) -> Result<(), Device>
    ensures { Writes W.contents out.old out.new result (release_front reply.now.service.now reply.now.kind reply.now.release) }
{
    put_lowercase(reply.service.as_bytes(), out)?;
    out.put_line(&[
        Piece::Bytes(b" "),
        Piece::Bytes(kind_name(reply.kind).as_bytes()),
        Piece::Bytes(b" as "),
        Piece::Bytes(release_text(reply.release)),
    ])
}

/// Writes a word, with a space before it and no control character in it.
fn put_shown<W: Write>(word: &[u8], out: &mut Out<W>) -> Result<(), Device>
    ensures { Writes W.contents out.old out.new result (codes " " ++ shown_word_text word.now) }
{
    out.put(b" ")?;
    put_shown_word(word, out)
}

/// Writes words, with a space before each.
fn put_arguments<W: Write>(words: &Texts, out: &mut Out<W>) -> Result<(), Device>
    ensures { Writes W.contents out.old out.new result (shown_words words.now) }
{
    for word in words.iter() {
        put_shown(word, out)?;
    }
    Ok(())
}

/// Writes the service of a rule, if it names one.
fn put_service<W: Write>(service: &Option<Vec<u8>>, out: &mut Out<W>) -> Result<(), Device>
    ensures { Writes W.contents out.old out.new result (service_text (option_map (λ s. s.items) service.now)) }
{
    match service {
        Some(service) => put_shown(service, out),
        None => Ok(()),
    }
}

/// Writes the kind of a rule, with its dash.
fn put_kind<W: Write>(dashed: bool, kind: Option<Kind>, out: &mut Out<W>) -> Result<(), Device>
    ensures { Writes W.contents out.old out.new result (kind_front dashed ++ kind_text kind) }
{
    out.put(kind_front(dashed))?;
    out.put(kind_text(kind))
}

fn kind_front(dashed: bool) -> &'static [u8]
    ensures { result.now ≡ kind_front dashed }
{
    if dashed { b" -" } else { b" " }
}

fn kind_text(kind: Option<Kind>) -> &'static [u8]
    ensures { result.now ≡ kind_text kind }
{
    match kind {
        Some(kind) => kind_name(kind).as_bytes(),
        None => b"@include",
    }
}

fn include_text(kind: Option<Kind>) -> &'static [u8]
    ensures { result.now ≡ include_text kind }
{
    match kind {
        Some(_) => b" include",
        None => b"",
    }
}

/// Writes a control, a path and arguments, with a space before each.
fn put_module<W: Write>(
    control: &Control,
    path: &[u8],
    arguments: &Texts,
    out: &mut Out<W>,
) -> Result<(), Device>
    ensures { Writes W.contents out.old out.new result (module_words control.now path.now arguments.now) }
{
    out.put(b" ")?;
    control.write_text(out)?;
    put_shown(path, out)?;
    put_arguments(arguments, out)
}

/// Writes a text, and a target after it.
fn put_followed<W: Write>(word: &[u8], target: &[u8], out: &mut Out<W>) -> Result<(), Device>
    ensures { Writes W.contents out.old out.new result (word.now ++ (codes " " ++ shown_word_text target.now)) }
{
    out.put(word)?;
    put_shown(target, out)
}

fn put_include<W: Write>(kind: Option<Kind>, target: &[u8], out: &mut Out<W>) -> Result<(), Device>
    ensures { Writes W.contents out.old out.new result (include_text kind ++ (codes " " ++ shown_word_text target.now)) }
{
    put_followed(include_text(kind), target, out)
}

fn put_sub<W: Write>(target: &[u8], out: &mut Out<W>) -> Result<(), Device>
    ensures { Writes W.contents out.old out.new result (codes " substack" ++ (codes " " ++ shown_word_text target.now)) }
{
    out.put(b" substack")?;
    put_shown(target, out)
}

/// Writes the words after the kind.
fn put_body<W: Write>(kind: Option<Kind>, body: &Body, out: &mut Out<W>) -> Result<(), Device>
    ensures { Writes W.contents out.old out.new result (body_text kind (body_view body.now)) }
{
    match body {
        Body::Module(control, path, arguments) => put_module(control, path, arguments, out),
        Body::Include(target) => put_include(kind, target, out),
        Body::Sub(target) => put_sub(target, out),
    }
}

fn put_rule<W: Write>(rule: &LineRule, out: &mut Out<W>) -> Result<(), Device>
    ensures { Writes W.contents out.old out.new result (rule_text (rule_view rule.now)) }
{
    put_service(&rule.service, out)?;
    put_kind(rule.dashed, rule.kind, out)?;
    put_body(rule.kind, &rule.body, out)
}

/// Writes that a rule always fails, its kind and its control.
fn put_failing<W: Write>(rule: &FailingRule, out: &mut Out<W>) -> Result<(), Device>
    ensures { Writes W.contents out.old out.new result (failing_text (failing_view rule.now)) }
{
    out.put(b" fails")?;
    put_kind(false, Some(rule.kind), out)?;
    out.put(b" ")?;
    rule.control.write_text(out)
}

fn put_reading<W: Write>(reading: &Reading, out: &mut Out<W>) -> Result<(), Device>
    ensures { Writes W.contents out.old out.new result (reading_text (reading_view reading.now)) }
{
    match reading {
        Reading::Rule(rule) => put_rule(rule, out),
        Reading::Fails(rule) => put_failing(rule, out),
        Reading::Refuses(_) => out.put(b" refused"),
    }
}

/// Writes the line of a rule.
#[tactic(auto, unfolding(crate::specs::text::Released::rule_line))]
fn put_rule_line<W: Write>(
    file: &[u8],
    rule: &NumberedReading,
    out: &mut Out<W>,
) -> Result<(), Device>
    ensures { Writes W.contents out.old out.new result (rule_line file.now (numbered_view rule.now)) }
{
    out.put_line(&[
        Piece::Bytes(file),
        Piece::Bytes(b":"),
        Piece::Number(rule.line as u64),
    ])?;
    put_reading(&rule.reading, out)?;
    out.put(b"\n")
}

/// Writes the lines of rules.
fn put_rules<W: Write>(
    file: &[u8],
    rules: &[NumberedReading],
    out: &mut Out<W>,
) -> Result<(), Device>
    ensures { Writes W.contents out.old out.new result (flat_map (rule_line file.now) (map numbered_view rules.now)) }
{
    for rule in rules {
        put_rule_line(file, rule, out)?;
    }
    Ok(())
}

fn put_rules_if_any<W: Write>(reply: &ReleasedReply<'_>, out: &mut Out<W>) -> Result<(), Device>
    ensures { Writes W.contents out.old out.new result (rule_lines reply.now.file.items (released_view reply.now).rules) }
{
    match &reply.rules {
        Some(rules) => put_rules(&reply.file, rules, out),
        None => Ok(()),
    }
}

/// Writes the rules of a kind.
fn put_released<W: Write>(reply: &ReleasedReply<'_>, out: &mut Out<W>) -> Result<(), Device>
    ensures { Writes W.contents out.old out.new result (released_text (released_view reply.now)) }
{
    put_release_front(reply, out)?;
    put_count(&reply.rules, out)?;
    put_rules_if_any(reply, out)
}

/// Writes the rules of each kind.
fn put_each<W: Write>(replies: &[ReleasedReply<'_>], out: &mut Out<W>) -> Result<(), Device>
    ensures { Writes W.contents out.old out.new result (released_texts (map released_view replies.now)) }
{
    for reply in replies {
        put_released(reply, out)?;
    }
    Ok(())
}

pub(crate) fn write_released<W: Write>(
    replies: &[ReleasedReply<'_>],
    out: &mut Out<W>,
) -> Result<(), Device>
    ensures { WritesAndFlushes W.contents out.old out.new result (released_texts (map released_view replies.now)) }
{
    put_each(replies, out)?;
    out.finish()
}
