//! The classes that are shown below a picture.

ghost use Rattle.std.specs.Prelude.{◌≡◌, IfOk, OnOk, length, map};
ghost use Rattle.std.specs.List.{range_with_len};
ghost use Rattle.pam_drawing.specs.picture.Notes.{class_of, number_of, told_by};
ghost use Rattle.pam_drawing.specs.picture.Notes.{is_same, noted_classes, number_from, with_class, with_classes};

use super::shapes::Note;
use crate::picture::label::is_noted;
use pam_codes::CodeSet;
use pam_graph::{Edge, Node};
use std::alloc::{AllocError, Global};

/// The height of a line below the picture.
pub(super) const LINE: usize = 16;

/// Whether two classes have the same codes.
fn is_same(class: CodeSet, other: CodeSet) -> bool
    ensures { result ≡ is_same class other }
{
    class == other
}

/// Returns the number of the note of a class, from 1; 0 if it has none.
pub(super) fn number_of(classes: &[CodeSet], class: CodeSet) -> usize
    ensures { result ≡ number_from 1 classes.now class }
{
    for (index, noted) in classes.iter().enumerate() {
        if is_same(*noted, class) {
            return index.saturating_add(1);
        }
    }
    0
}

/// Adds a class, if its label refers to a note and none has it.
fn add_class(classes: &mut Vec<CodeSet>, class: CodeSet) -> Result<(), AllocError>
    ensures { OnOk result (classes.new.items ≡ with_class classes.old.items class) }
{
    if is_noted(class) && number_of(classes, class) == 0 {
        classes.push(class)?;
    }
    Ok(())
}

fn add_classes(classes: &mut Vec<CodeSet>, edges: &[Edge]) -> Result<(), AllocError>
    ensures { OnOk result (classes.new.items ≡ with_classes classes.old.items (map class_of edges.now)) }
{
    for edge in edges {
        add_class(classes, edge.class)?;
    }
    Ok(())
}

/// Returns the classes of edges of nodes that have notes.
pub(super) fn noted_classes(alloc: Global, nodes: &[Node]) -> Result<Vec<CodeSet>, AllocError>
    ensures { IfOk result (λ classes. classes.items ≡ noted_classes nodes.now) }
{
    let mut classes = Vec::new(alloc);
    for node in nodes {
        add_classes(&mut classes, &node.edges)?;
    }
    Ok(classes)
}

/// Returns the notes, one below the other from a height on.
pub(super) fn all_notes(
    alloc: Global,
    classes: &[CodeSet],
    first: usize,
) -> Result<Vec<Note>, AllocError>
    ensures numbers { IfOk result (λ notes. map number_of notes.items ≡ range_with_len 1 (length classes.now)) }
    ensures classes { IfOk result (λ notes. map told_by notes.items ≡ classes.now) }
{
    let mut notes = Vec::new(alloc);
    for (index, class) in classes.iter().enumerate() {
        notes.push(Note {
            number: index.saturating_add(1),
            class: *class,
            height: first.saturating_add(index.saturating_mul(LINE)),
        })?;
    }
    Ok(notes)
}
