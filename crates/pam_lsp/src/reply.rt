//! The replies to requests.

ghost use Rattle.std.specs.Prelude.{◌≡◌};
ghost use Rattle.pam_codes.specs.Out.{Writes};
ghost use Rattle.serde_json.specs.Written.{compact_text};
ghost use Rattle.pam_lsp.specs.Messages.{id_view};
ghost use Rattle.pam_lsp.specs.Replies as spec;

use crate::message::{Id, Refusal};
use crate::position::Encoding;
use pam_codes::{Device, Out};
use pam_render::json_lines::{Member, Written, put_object, put_quoted};
use std::io::Write;

/// What a reply says.
#[derive(Clone, Copy)]
pub enum Answer {
    /// What the server can do.
    Welcome(Encoding),
    /// Nothing.
    Nothing,
    Refused(Refusal),
}

impl Written for Id {
    ghost use Rattle.pam_lsp.specs.Messages.{id_view};

    ghost value = { id_view };

    fn put<W: Write>(&self, out: &mut Out<W>) -> Result<(), Device> {
        match self {
            Id::Null => out.put(b"null"),
            Id::Number(number) => out.put_number(*number),
            Id::Text(text) => put_quoted(text.as_bytes(), out),
        }
    }
}

/// The code of a refusal.
impl Written for Refusal {
    ghost use Rattle.pam_lsp.specs.Replies.{code_of};

    ghost value = { code_of };

    fn put<W: Write>(&self, out: &mut Out<W>) -> Result<(), Device> {
        match self {
            Refusal::NotJson => out.put(b"-32700"),
            Refusal::InvalidRequest => out.put(b"-32600"),
            Refusal::UnknownMethod => out.put(b"-32601"),
            Refusal::WrongParameters => out.put(b"-32602"),
            Refusal::NotInitialized => out.put(b"-32002"),
        }
    }
}

/// What is wrong with a message that is refused.
fn sentence_of(refusal: Refusal) -> &'static str
    ensures { result.now ≡ spec.sentence_of refusal }
{
    match refusal {
        Refusal::NotJson => "the message is no JSON",
        Refusal::InvalidRequest => "the message is no valid request",
        Refusal::UnknownMethod => "the method is not known",
        Refusal::WrongParameters => "the parameters are wrong",
        Refusal::NotInitialized => "the server is not initialized",
    }
}

/// The name of the units in which characters are counted.
fn encoding_name(encoding: Encoding) -> &'static str
    ensures { result.now ≡ spec.encoding_name encoding }
{
    match encoding {
        Encoding::Utf8 => "utf-8",
        Encoding::Utf16 => "utf-16",
    }
}

/// What a server that is initialized can do: each change of a document is its whole text.
#[derive(Clone, Copy)]
struct Capabilities {
    encoding: Encoding,
}

impl Written for Capabilities {
    ghost use Rattle.pam_lsp.specs.Replies.{capabilities_object};

    ghost value = { λ capabilities. capabilities_object capabilities.encoding };

    fn put<W: Write>(&self, out: &mut Out<W>) -> Result<(), Device> {
        let members: [Member<'_, ()>; 2] = [
            Member::text("positionEncoding", encoding_name(self.encoding).as_bytes()),
            Member::number("textDocumentSync", 1),
        ];
        put_object(&members, out)
    }
}

/// A member of a reply.
#[derive(Clone, Copy)]
enum ReplyValue<'x> {
    Id(&'x Id),
    Welcome(Encoding),
    Error(Refusal),
}

fn put_welcome<W: Write>(encoding: Encoding, out: &mut Out<W>) -> Result<(), Device>
    ensures { Writes W.contents out.old out.new result (compact_text (spec.welcome_object encoding)) }
{
    put_object(
        &[Member::written("capabilities", Capabilities { encoding })],
        out,
    )
}

fn put_error<W: Write>(refusal: Refusal, out: &mut Out<W>) -> Result<(), Device>
    ensures { Writes W.contents out.old out.new result (compact_text (spec.error_object refusal)) }
{
    put_object(
        &[
            Member::written("code", refusal),
            Member::text("message", sentence_of(refusal).as_bytes()),
        ],
        out,
    )
}

impl Written for ReplyValue<'_> {
    ghost use Rattle.pam_lsp.specs.inner.Written.{reply_value};

    ghost value = { reply_value };

    fn put<W: Write>(&self, out: &mut Out<W>) -> Result<(), Device> {
        match self {
            ReplyValue::Id(id) => id.put(out),
            ReplyValue::Welcome(encoding) => put_welcome(*encoding, out),
            ReplyValue::Error(refusal) => put_error(*refusal, out),
        }
    }
}

/// Writes the reply to the request with this id.
pub(crate) fn put_reply<W: Write>(id: &Id, answer: Answer, out: &mut Out<W>) -> Result<(), Device>
    ensures { Writes W.contents out.old out.new result (spec.reply_text (id_view id.now) answer) }
{
    let version = Member::text("jsonrpc", b"2.0");
    let id = Member::written("id", ReplyValue::Id(id));
    let answer = match answer {
        Answer::Welcome(encoding) => Member::written("result", ReplyValue::Welcome(encoding)),
        Answer::Nothing => Member::null("result"),
        Answer::Refused(refusal) => Member::written("error", ReplyValue::Error(refusal)),
    };
    put_object(&[version, id, answer], out)
}
