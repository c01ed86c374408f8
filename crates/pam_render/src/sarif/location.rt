//! Where a finding is.

ghost use Rattle.std.specs.Prelude.{◌≡◌, ◌<◌, None, Some};
ghost use Rattle.std.specs.List.{flat_map};
ghost use Rattle.json.specs.Print.{escape};
ghost use Rattle.pam_text.specs.Out.{Writes};
ghost use Rattle.serde_json.specs.Data.{string};
ghost use Rattle.serde_json.specs.Written.{compact_text};
ghost use Rattle.pam_render.specs.sarif.Location as spec;

use crate::json_lines::{Member, Written, put_escaped, put_object, put_single};
use pam_findings::misspelled::Spot;
use pam_text::{Device, Out};
use std::io::Write;

/// Whether a byte of a path stands for itself in a URI.
fn is_uri_byte(byte: u8) -> bool
    ensures { result ≡ spec.is_uri_byte byte }
{
    byte.is_ascii_alphanumeric() || b"/-._~".contains(&byte)
}

/// Returns the hexadecimal digit of a number below 16, in capitals as RFC 3986 wants it.
fn uri_digit(number: u8) -> u8
    requires { number < 16 }
    ensures { result ≡ spec.uri_digit number }
{
    if number < 10 {
        b'0' + number
    } else {
        b'A' - 10 + number
    }
}

/// Writes a byte of a path, as `%2A` if it does not stand for itself.
fn put_uri_byte<W: Write>(byte: u8, out: &mut Out<W>) -> Result<(), Device>
    ensures { Writes W.contents out.old out.new result (escape (spec.uri_byte byte)) }
{
    if is_uri_byte(byte) {
        return put_escaped(&[byte], out);
    }
    put_escaped(&[b'%', uri_digit(byte / 16), uri_digit(byte % 16)], out)
}

/// Writes the scheme and the empty host of an absolute path.
fn put_scheme<W: Write>(path: &[u8], out: &mut Out<W>) -> Result<(), Device>
    ensures { Writes W.contents out.old out.new result (escape (spec.scheme_of path.now)) }
{
    if path.starts_with(b"/") {
        return put_escaped(b"file://", out);
    }
    Ok(())
}

fn put_uri_bytes<W: Write>(path: &[u8], out: &mut Out<W>) -> Result<(), Device>
    ensures { Writes W.contents out.old out.new result (flat_map (λ byte. escape (spec.uri_byte byte)) path.now) }
{
    for byte in path {
        put_uri_byte(*byte, out)?;
    }
    Ok(())
}

/// Writes a path as the string of a URI reference.
pub fn put_uri<W: Write>(path: &[u8], out: &mut Out<W>) -> Result<(), Device>
    ensures { Writes W.contents out.old out.new result (compact_text (string (spec.uri_of path.now))) }
{
    out.put(b"\"")?;
    put_scheme(path, out)?;
    put_uri_bytes(path, out)?;
    out.put(b"\"")
}

/// A path, as a URI reference.
#[derive(Clone, Copy)]
struct UriValue<'x> {
    path: &'x [u8],
}

impl Written for UriValue<'_> {
    ghost use Rattle.serde_json.specs.Data.{string};
    ghost use Rattle.pam_render.specs.sarif.Location.{uri_of};

    ghost value = { λ uri. string (uri_of uri.path.now) };

    fn put<W: Write>(&self, out: &mut Out<W>) -> Result<(), Device> {
        put_uri(self.path, out)
    }
}

fn put_artifact<W: Write>(path: &[u8], out: &mut Out<W>) -> Result<(), Device>
    ensures { Writes W.contents out.old out.new result (compact_text (spec.artifact_object path.now)) }
{
    put_object(&[Member::written("uri", UriValue { path })], out)
}

/// A file, and in it a line, 0 for none, and a word if one is meant.
#[derive(Clone, Copy)]
pub(super) struct Located<'x> {
    pub path: &'x [u8],
    pub line: usize,
    pub spot: Option<Spot>,
}

/// The column after the last byte of a word.
fn end_column(spot: Spot) -> u64
    ensures { result ≡ spec.end_column spot }
{
    (spot.column as u64).saturating_add(spot.len as u64)
}

/// Writes a line, as the region of a finding that is about no word.
fn put_line<W: Write>(line: usize, out: &mut Out<W>) -> Result<(), Device>
    ensures { Writes W.contents out.old out.new result (compact_text (spec.region_object line None)) }
{
    let members: [Member<'_, ()>; 1] = [Member::number("startLine", line as u64)];
    put_object(&members, out)
}

/// Writes the spot of a word, as the region of a finding that is about one.
fn put_spot<W: Write>(spot: Spot, out: &mut Out<W>) -> Result<(), Device>
    ensures { Writes W.contents out.old out.new result (compact_text (spec.region_object 0 (Some spot))) }
{
    let members: [Member<'_, ()>; 3] = [
        Member::number("startLine", spot.line as u64),
        Member::number("startColumn", spot.column as u64),
        Member::number("endColumn", end_column(spot)),
    ];
    put_object(&members, out)
}

fn put_region<W: Write>(line: usize, spot: Option<Spot>, out: &mut Out<W>) -> Result<(), Device>
    ensures { Writes W.contents out.old out.new result (compact_text (spec.region_object line spot)) }
{
    match spot {
        Some(spot) => put_spot(spot, out),
        None => put_line(line, out),
    }
}

/// A member of the place in a file.
#[derive(Clone, Copy)]
enum PlaceValue<'x> {
    Artifact(&'x [u8]),
    Region(usize, Option<Spot>),
}

impl Written for PlaceValue<'_> {
    ghost use Rattle.pam_render.specs.sarif.inner.Written.{place_value};

    ghost value = { place_value };

    fn put<W: Write>(&self, out: &mut Out<W>) -> Result<(), Device> {
        match self {
            PlaceValue::Artifact(path) => put_artifact(path, out),
            PlaceValue::Region(line, spot) => put_region(*line, *spot, out),
        }
    }
}

/// Writes the file and what is meant in it, which is nothing for a file as a whole.
fn put_physical<W: Write>(located: Located<'_>, out: &mut Out<W>) -> Result<(), Device>
    ensures { Writes W.contents out.old out.new result
        (compact_text (spec.physical_object located.entry.path.now located.entry.line located.entry.spot)) }
{
    let artifact = Member::written("artifactLocation", PlaceValue::Artifact(located.path));
    if located.line == 0 {
        return put_object(&[artifact], out);
    }
    put_object(
        &[
            artifact,
            Member::written("region", PlaceValue::Region(located.line, located.spot)),
        ],
        out,
    )
}

/// The place in a file.
#[derive(Clone, Copy)]
struct PhysicalValue<'x> {
    located: Located<'x>,
}

impl Written for PhysicalValue<'_> {
    ghost use Rattle.pam_render.specs.sarif.inner.Written.{physical_value};

    ghost value = { λ place. physical_value place.located };

    fn put<W: Write>(&self, out: &mut Out<W>) -> Result<(), Device> {
        put_physical(self.located, out)
    }
}

fn put_location<W: Write>(located: Located<'_>, out: &mut Out<W>) -> Result<(), Device>
    ensures { Writes W.contents out.old out.new result
        (compact_text (spec.location_object located.entry.path.now located.entry.line located.entry.spot)) }
{
    put_object(
        &[Member::written("physicalLocation", PhysicalValue { located })],
        out,
    )
}

/// A location.
#[derive(Clone, Copy)]
struct LocationValue<'x> {
    located: Located<'x>,
}

impl Written for LocationValue<'_> {
    ghost use Rattle.pam_render.specs.sarif.inner.Written.{location_value};

    ghost value = { λ place. location_value place.located };

    fn put<W: Write>(&self, out: &mut Out<W>) -> Result<(), Device> {
        put_location(self.located, out)
    }
}

/// Writes the locations of a finding, of which it has one.
pub(super) fn put_locations<W: Write>(located: Located<'_>, out: &mut Out<W>) -> Result<(), Device>
    ensures { Writes W.contents out.old out.new result
        (compact_text (spec.locations_array located.entry.path.now located.entry.line located.entry.spot)) }
{
    put_single(&LocationValue { located }, out)
}
