//! What a message of the client asks.

ghost use Rattle.std.specs.Prelude.{◌≡◌, IfOk, map};
ghost use Rattle.std.specs.Option.{option_copied, option_map};
ghost use Rattle.serde_json.specs.Find.{as_str};
ghost use Rattle.serde_json.specs.View.{view};
ghost use Rattle.pam_lsp.specs.Messages as spec;

use crate::document::Document;
use crate::finding::refused;
use crate::place::document_of;
use crate::position::Encoding;
use serde_json::Value;
use std::alloc::{AllocError, Global};

/// The id of a request, which its reply has too.
#[derive(Drop)]
pub enum Id {
    /// That of a message whose id cannot be read.
    Null,
    Number(u64),
    Text(String),
}

/// Why a message is refused.
#[derive(Clone, Copy)]
pub enum Refusal {
    NotJson,
    InvalidRequest,
    UnknownMethod,
    WrongParameters,
    NotInitialized,
}

/// What a request asks.
#[derive(Clone, Copy)]
pub enum Asked {
    Initialize(Encoding),
    Shutdown,
    /// A method that is not known.
    Other,
}

/// What a notification says.
#[derive(Drop)]
pub enum Notice {
    Opened(Document),
    Changed(Document),
    /// The document with this URI was closed.
    Closed(String),
    /// Files have changed.
    Saved,
    Exit,
    /// What is passed over.
    Other,
}

/// A message of the client.
#[derive(Drop)]
pub enum Message {
    Refused { id: Id, refusal: Refusal },
    Request { id: Id, asked: Asked },
    Notice(Notice),
}

/// The text at a JSON pointer.
fn text_at<'v>(value: &'v Value, pointer: &str) -> Option<&'v str>
    ensures { option_copied result ≡ spec.text_at pointer.now (view value.now) }
{
    match value.pointer(pointer) {
        Some(found) => found.as_str(),
        None => None,
    }
}

/// The number at a JSON pointer.
fn number_at(value: &Value, pointer: &str) -> Option<u64>
    ensures { result ≡ spec.number_at pointer.now (view value.now) }
{
    match value.pointer(pointer) {
        Some(found) => found.as_u64(),
        None => None,
    }
}

/// The id that a value is, which is a number or a text.
fn id_of(alloc: Global, value: &Value) -> Result<Option<Id>, AllocError>
    ensures { IfOk result (λ id. option_map spec.id_view id ≡ spec.id_of (view value.now)) }
{
    if let Some(number) = value.as_u64() {
        return Ok(Some(Id::Number(number)));
    }
    match value.as_str() {
        Some(text) => Ok(Some(Id::Text(String::from_str(alloc, text)?))),
        None => Ok(None),
    }
}

/// The document that parameters are, if all of them are there.
fn document_in(
    alloc: Global,
    uri: Option<&str>,
    version: Option<u64>,
    text: Option<&str>,
) -> Result<Option<Document>, AllocError>
    ensures { IfOk result (λ document. option_map spec.document_view document
        ≡ spec.document_in (option_copied uri.entry) version (option_copied text.entry)) }
{
    match (uri, version, text) {
        (Some(uri), Some(version), Some(text)) => document_of(alloc, uri, version, text),
        _ => Ok(None),
    }
}

fn opened(alloc: Global, value: &Value) -> Result<Notice, AllocError>
    ensures { IfOk result (λ notice. spec.notice_view notice ≡ spec.opened (view value.now)) }
{
    let uri = text_at(value, "/params/textDocument/uri");
    let version = number_at(value, "/params/textDocument/version");
    let text = text_at(value, "/params/textDocument/text");
    match document_in(alloc, uri, version, text)? {
        Some(document) => Ok(Notice::Opened(document)),
        None => Ok(Notice::Other),
    }
}

/// The text of the last of several changes, each of which is the whole text.
fn last_text(changes: &[Value]) -> Option<&str>
    ensures { option_copied result ≡ spec.last_text (map view changes.now) }
{
    match changes.last() {
        Some(change) => text_at(change, "/text"),
        None => None,
    }
}

/// What an array holds.
#[tactic(auto, using(crate::proofs::Items::list_of_items))]
fn items_of(value: &Value) -> Option<&[Value]>
    ensures { option_map (λ items. map view items.now) result ≡ spec.items_of (view value.now) }
{
    match value.as_array() {
        Some(items) => Some(items.as_slice()),
        None => None,
    }
}

/// What the array at a JSON pointer holds.
fn items_at<'v>(value: &'v Value, pointer: &str) -> Option<&'v [Value]>
    ensures { option_map (λ items. map view items.now) result ≡ spec.items_at pointer.now (view value.now) }
{
    match value.pointer(pointer) {
        Some(found) => items_of(found),
        None => None,
    }
}

/// The text to which a document is changed.
fn changed_text(value: &Value) -> Option<&str>
    ensures { option_copied result ≡ spec.changed_text (view value.now) }
{
    match items_at(value, "/params/contentChanges") {
        Some(changes) => last_text(changes),
        None => None,
    }
}

fn changed(alloc: Global, value: &Value) -> Result<Notice, AllocError>
    ensures { IfOk result (λ notice. spec.notice_view notice ≡ spec.changed (view value.now)) }
{
    let uri = text_at(value, "/params/textDocument/uri");
    let version = number_at(value, "/params/textDocument/version");
    match document_in(alloc, uri, version, changed_text(value))? {
        Some(document) => Ok(Notice::Changed(document)),
        None => Ok(Notice::Other),
    }
}

fn closed(alloc: Global, value: &Value) -> Result<Notice, AllocError>
    ensures { IfOk result (λ notice. spec.notice_view notice ≡ spec.closed (view value.now)) }
{
    match text_at(value, "/params/textDocument/uri") {
        Some(uri) => Ok(Notice::Closed(String::from_str(alloc, uri)?)),
        None => Ok(Notice::Other),
    }
}

/// What a notification says.
fn notice_of(alloc: Global, method: &str, value: &Value) -> Result<Notice, AllocError>
    ensures { IfOk result (λ notice. spec.notice_view notice ≡ spec.notice_of method.now (view value.now)) }
{
    if method == "textDocument/didOpen" {
        opened(alloc, value)
    } else if method == "textDocument/didChange" {
        changed(alloc, value)
    } else if method == "textDocument/didClose" {
        closed(alloc, value)
    } else if method == "textDocument/didSave" || method == "workspace/didChangeWatchedFiles" {
        Ok(Notice::Saved)
    } else if method == "exit" {
        Ok(Notice::Exit)
    } else {
        Ok(Notice::Other)
    }
}

/// Whether a value is this text.
fn is_text(value: &Value, text: &str) -> bool
    ensures { result ≡ spec.is_text text.now (as_str (view value.now)) }
{
    match value.as_str() {
        Some(found) => found == text,
        None => false,
    }
}

/// Whether one of these values is this text.
fn has_text(values: &[Value], text: &str) -> bool
    ensures { result ≡ spec.has_text text.now (map view values.now) }
{
    for value in values {
        if is_text(value, text) {
            return true;
        }
    }
    false
}

/// The units that are taken of those that are offered.
fn encoding_among(offered: &[Value]) -> Encoding
    ensures { result ≡ spec.encoding_among (map view offered.now) }
{
    if has_text(offered, "utf-8") {
        Encoding::Utf8
    } else {
        Encoding::Utf16
    }
}

/// The units that the client takes: bytes, if it offers them.
fn encoding_of(value: &Value) -> Encoding
    ensures { result ≡ spec.encoding_of (view value.now) }
{
    match items_at(value, "/params/capabilities/general/positionEncodings") {
        Some(offered) => encoding_among(offered),
        None => Encoding::Utf16,
    }
}

/// What a request asks; `None` where it lacks its parameters.
fn asked_of(method: &str, value: &Value) -> Option<Asked>
    ensures { result ≡ spec.asked_of method.now (view value.now) }
{
    if method == "initialize" {
        match value.get("params") {
            Some(Value::Object(_)) => Some(Asked::Initialize(encoding_of(value))),
            _ => None,
        }
    } else if method == "shutdown" {
        Some(Asked::Shutdown)
    } else {
        Some(Asked::Other)
    }
}

/// A request with its id.
fn request_of(id: Id, method: &str, value: &Value) -> Message
    ensures { spec.message_view result ≡ spec.request_of (spec.id_view id) method.now (view value.now) }
{
    match asked_of(method, value) {
        Some(asked) => Message::Request { id, asked },
        None => Message::Refused {
            id,
            refusal: Refusal::WrongParameters,
        },
    }
}

/// A message with a method: a request, where it has an id, or a notification.
fn called(alloc: Global, method: &str, value: &Value) -> Result<Message, AllocError>
    ensures { IfOk result (λ message. spec.message_view message ≡ spec.called method.now (view value.now)) }
{
    let Some(member) = value.get("id") else {
        return Ok(Message::Notice(notice_of(alloc, method, value)?));
    };
    match id_of(alloc, member)? {
        Some(id) => Ok(request_of(id, method, value)),
        None => Ok(Message::Refused {
            id: Id::Null,
            refusal: Refusal::InvalidRequest,
        }),
    }
}

/// Whether a message is a response to a request.
fn is_response(value: &Value) -> bool
    ensures { result ≡ spec.is_response (view value.now) }
{
    value.get("result").is_some() || value.get("error").is_some()
}

/// The id of a message, as far as it has one.
fn id_or_null(alloc: Global, value: &Value) -> Result<Id, AllocError>
    ensures { IfOk result (λ id. spec.id_view id ≡ spec.id_or_null (view value.now)) }
{
    let Some(member) = value.get("id") else {
        return Ok(Id::Null);
    };
    match id_of(alloc, member)? {
        Some(id) => Ok(id),
        None => Ok(Id::Null),
    }
}

/// What a message asks. A response is passed over, since no request is sent.
fn message_in(alloc: Global, value: &Value) -> Result<Message, AllocError>
    ensures { IfOk result (λ message. spec.message_view message ≡ spec.message_in (view value.now)) }
{
    if let Some(method) = text_at(value, "/method") {
        return called(alloc, method, value);
    }
    if is_response(value) {
        return Ok(Message::Notice(Notice::Other));
    }
    Ok(Message::Refused {
        id: id_or_null(alloc, value)?,
        refusal: Refusal::InvalidRequest,
    })
}

/// Reads a message.
pub(crate) fn read(alloc: Global, text: &[u8]) -> Result<Message, AllocError>
    ensures { IfOk result (λ message. spec.Reads text.now (spec.message_view message)) }
{
    match Value::from_slice(alloc, text) {
        Ok(value) => message_in(alloc, &value),
        Err(error) => {
            refused(&error)?;
            Ok(Message::Refused {
                id: Id::Null,
                refusal: Refusal::NotJson,
            })
        }
    }
}
