//! The state of a server, and what a message makes of it.

ghost use Rattle.std.specs.Prelude.{◌≡◌, ◌++◌, ◌∷◌, [], IfOk, OnOk, map};
ghost use Rattle.pam_lsp.specs.Documents.{document_view};
ghost use Rattle.pam_lsp.specs.Messages.{MessageText, Reads, id_view, message_view, notice_view};
ghost use Rattle.pam_lsp.specs.Replies.{reply_text};
ghost use Rattle.pam_lsp.specs.States as spec;
ghost use Rattle.pam_lsp.specs.States.{Steps, state_view};

use crate::document::{Document, change, close, open};
use crate::message::{Asked, Id, Message, Notice, Refusal, read};
use crate::position::Encoding;
use crate::publishing::{Shown, publish};
use crate::reply::{Answer, put_reply};
use pam_cli::System;
use pam_codes::Out;
use std::alloc::{AllocError, Global};

/// How far a session is.
#[derive(Clone, Copy)]
pub enum Phase {
    /// Before it is initialized.
    Fresh,
    Running,
    /// After `shutdown`.
    Ended,
}

/// The state of a server.
#[derive(Drop)]
pub struct State {
    pub(crate) phase: Phase,
    pub(crate) encoding: Encoding,
    pub(crate) documents: Vec<Document>,
    /// The paths of the files of which findings are published.
    pub(crate) published: Vec<String>,
}

impl State {
    /// That before the first message.
    pub fn new(alloc: Global) -> State
        ensures { state_view result ≡ spec.fresh }
    {
        State {
            phase: Phase::Fresh,
            encoding: Encoding::Utf16,
            documents: Vec::new(alloc),
            published: Vec::new(alloc),
        }
    }
}

/// What a request is answered.
fn answer_of(phase: Phase, asked: Asked) -> Answer
    ensures { result ≡ spec.answer_of phase asked }
{
    match (phase, asked) {
        (Phase::Fresh, Asked::Initialize(encoding)) => Answer::Welcome(encoding),
        (Phase::Fresh, _) => Answer::Refused(Refusal::NotInitialized),
        (Phase::Running, Asked::Shutdown) => Answer::Nothing,
        (Phase::Running, Asked::Other) => Answer::Refused(Refusal::UnknownMethod),
        (Phase::Running, Asked::Initialize(_)) | (Phase::Ended, _) => {
            Answer::Refused(Refusal::InvalidRequest)
        }
    }
}

/// How far a session is after a request.
fn phase_after(phase: Phase, asked: Asked) -> Phase
    ensures { result ≡ spec.phase_after phase asked }
{
    match (phase, asked) {
        (Phase::Fresh, Asked::Initialize(_)) => Phase::Running,
        (Phase::Running, Asked::Shutdown) => Phase::Ended,
        _ => phase,
    }
}

/// The units that are agreed on after a request.
fn encoding_after(phase: Phase, old: Encoding, asked: Asked) -> Encoding
    ensures { result ≡ spec.encoding_after phase old asked }
{
    match (phase, asked) {
        (Phase::Fresh, Asked::Initialize(encoding)) => encoding,
        _ => old,
    }
}

/// Adds the reply to the request with this id.
fn push_reply(
    alloc: Global,
    id: &Id,
    answer: Answer,
    sent: &mut Vec<Vec<u8>>,
) -> Result<(), AllocError>
    ensures { OnOk result (map (λ m. m.items) sent.new.items ≡ map (λ m. m.items) sent.old.items ++ reply_text (id_view id.now) answer ∷ []) }
{
    let mut out = Out::new(Vec::new(alloc));
    match put_reply(id, answer, &mut out) {
        Ok(()) => {
            sent.push(out.into_inner())?;
            Ok(())
        }
        Err(_) => Err(AllocError),
    }
}

/// What a notification makes of the documents. Returns whether files are to be checked again.
fn note(documents: &mut Vec<Document>, notice: Notice) -> Result<bool, AllocError>
    ensures { IfOk result (λ again. (map document_view documents.new.items ≡ spec.documents_after (notice_view notice) (map document_view documents.old.items))
        × (again ≡ spec.is_checked_after (notice_view notice))) }
{
    match notice {
        Notice::Opened(document) => {
            open(documents, document)?;
            Ok(true)
        }
        Notice::Changed(document) => {
            change(documents, document)?;
            Ok(true)
        }
        Notice::Closed(uri) => {
            close(documents, uri.as_str());
            Ok(true)
        }
        Notice::Saved => Ok(true),
        Notice::Exit | Notice::Other => Ok(false),
    }
}

/// Checks the folders of the documents again, and publishes what is found.
fn check_again<S: System>(
    state: &mut State,
    system: &S,
    alloc: Global,
    sent: &mut Vec<Vec<u8>>,
) -> Result<(), AllocError>
    ensures { OnOk result (spec.ChecksAgain (S.told system.now) (state_view state.old) (state_view state.new)
        (map (λ m. m.items) sent.old.items) (map (λ m. m.items) sent.new.items)) }
{
    let shown = Shown {
        encoding: state.encoding,
        documents: &state.documents,
    };
    let now = publish(system, alloc, shown, &state.published, sent)?;
    state.published = now;
    Ok(())
}

/// What a notification makes of a session that runs.
fn note_running<S: System>(
    state: &mut State,
    system: &S,
    alloc: Global,
    notice: Notice,
    sent: &mut Vec<Vec<u8>>,
) -> Result<(), AllocError>
    ensures { OnOk result (spec.NotesRunning (S.told system.now) (notice_view notice) (state_view state.old) (state_view state.new)
        (map (λ m. m.items) sent.old.items) (map (λ m. m.items) sent.new.items)) }
{
    let again = note(&mut state.documents, notice)?;
    if again {
        check_again(state, system, alloc, sent)?;
    }
    Ok(())
}

/// What a notification makes of a session. It is passed over unless the session runs.
fn note_in<S: System>(
    state: &mut State,
    system: &S,
    alloc: Global,
    notice: Notice,
    sent: &mut Vec<Vec<u8>>,
) -> Result<(), AllocError>
    ensures { OnOk result (spec.Notes (S.told system.now) (notice_view notice) (state_view state.old) (state_view state.new)
        (map (λ m. m.items) sent.old.items) (map (λ m. m.items) sent.new.items)) }
{
    match state.phase {
        Phase::Running => note_running(state, system, alloc, notice, sent),
        Phase::Fresh | Phase::Ended => Ok(()),
    }
}

/// The exit status of a session that is told to exit.
fn exit_status(phase: Phase) -> u8
    ensures { result ≡ spec.exit_status phase }
{
    match phase {
        Phase::Ended => 0,
        Phase::Fresh | Phase::Running => 1,
    }
}

/// The exit status after a notification that ends the session.
fn status_after(phase: Phase, notice: &Notice) -> Option<u8>
    ensures { result ≡ spec.status_after phase (notice_view notice.now) }
{
    match notice {
        Notice::Exit => Some(exit_status(phase)),
        Notice::Opened(_) => None,
        Notice::Changed(_) => None,
        Notice::Closed(_) => None,
        Notice::Saved => None,
        Notice::Other => None,
    }
}

/// Answers a request.
fn answer(
    state: &mut State,
    alloc: Global,
    id: &Id,
    asked: Asked,
    sent: &mut Vec<Vec<u8>>,
) -> Result<(), AllocError>
    ensures { OnOk result (spec.Answers (id_view id.now) asked (state_view state.old) (state_view state.new)
        (map (λ m. m.items) sent.old.items) (map (λ m. m.items) sent.new.items)) }
{
    let phase = state.phase;
    push_reply(alloc, id, answer_of(phase, asked), sent)?;
    state.encoding = encoding_after(phase, state.encoding, asked);
    state.phase = phase_after(phase, asked);
    Ok(())
}

/// Does what a message asks, adds the messages that are to be sent, and returns the exit status where it ends the session.
fn act<S: System>(
    state: &mut State,
    system: &S,
    alloc: Global,
    message: Message,
    sent: &mut Vec<Vec<u8>>,
) -> Result<Option<u8>, AllocError>
    ensures { IfOk result (λ status. Steps (S.told system.now) (message_view message) (state_view state.old) (state_view state.new)
        (map (λ m. m.items) sent.old.items) (map (λ m. m.items) sent.new.items) status) }
{
    match message {
        Message::Refused { id, refusal } => {
            push_reply(alloc, &id, Answer::Refused(refusal), sent)?;
            Ok(None)
        }
        Message::Request { id, asked } => {
            answer(state, alloc, &id, asked, sent)?;
            Ok(None)
        }
        Message::Notice(notice) => {
            let status = status_after(state.phase, &notice);
            note_in(state, system, alloc, notice, sent)?;
            Ok(status)
        }
    }
}

/// Takes a message, adds the messages that are to be sent, and returns the exit status where it ends the session.
pub fn receive<S: System>(
    state: &mut State,
    system: &S,
    alloc: Global,
    text: &[u8],
    sent: &mut Vec<Vec<u8>>,
) -> Result<Option<u8>, AllocError>
    ensures { IfOk result (λ status. (message : MessageText) × Reads text.now message
        × Steps (S.told system.now) message (state_view state.old) (state_view state.new)
        (map (λ m. m.items) sent.old.items) (map (λ m. m.items) sent.new.items) status) }
{
    let message = read(alloc, text)?;
    act(state, system, alloc, message, sent)
}
