// Streams that were tested, and the uploads in them.
ghost use Rattle.std.specs.Prelude.{◌≡◌, ℕ, ◌+◌, ◌-◌, ◌<◌, ◌≤◌, ◌^◌, [], ◌∷◌, List, length};
ghost use Rattle.std.specs.Prelude.{IfOk, IfErr, IfSome, IfNone, OnOk};
ghost use Rattle.upload_stream.specs.Entries.{BeginsNone, BeginsWith, upload_of};
ghost use Rattle.upload_stream.specs.Streams.{HasEntryForm, IsFirstBad, Upload as Entry, UploadList};
ghost use Rattle.upload_stream.specs.Streams.{uploads_after, uploads_at};
ghost use Rattle.upload_stream.specs.inner.Reading.{IsSplitAt, uploads_in};

use crate::entry::{Upload, entry_ahead};
use crate::fault::BadEntry;
use byte_fields::Cursor;
use std::marker::Model;

/// The uploads of a stream that was tested, in its order, or a part of them. It lends the bytes of the stream
/// and takes no memory.
#[derive(Drop)]
pub struct Uploads<'a> {
    bytes: &'a [u8],
}

impl<'a> Model for Uploads<'a> {
    ghost Value = { List Entry };

    ghost view = { λ u. uploads_in u.bytes.now };

    ghost invariant = { λ u. UploadList u.bytes.now (uploads_in u.bytes.now) };
}

// Reads the entry at the front, whose tick is to be no less than the least. Where it is bad, the cursor may
// stand anywhere.
fn next_upload<'a>(from: &mut Cursor<'a>, least: u64) -> Result<Upload<'a>, BadEntry>
    ensures found { IfOk result (λ upload. BeginsWith least from.old.0 (upload_of upload) from.new.0) }
    ensures place { OnOk result (from.new.1 + length from.new.0 ≡ from.old.1 + length from.old.0) }
    ensures bad { IfErr result (λ e. (e.place ≡ from.old.1) × BeginsNone least from.old.0) }
{
    let place = from.place() as u64;
    match entry_ahead(from) {
        Ok(upload) if least <= upload.tick => Ok(upload),
        _ => Err(BadEntry { place }),
    }
}

// Tests a stream to its end.
fn test_stream(bytes: &[u8]) -> Result<(), BadEntry>
    ensures good { OnOk result ((uploads : List Entry) × UploadList bytes.now uploads) }
    ensures bad { IfErr result (λ e. IsFirstBad bytes.now e.place) }
{
    let mut from = Cursor::over(bytes);
    let mut least = 0;
    'each: while from.left() > 0 {
        let upload = next_upload(&mut from, least)?;
        least = upload.tick;
    }
    Ok(())
}

// How many bytes the uploads of the ticks before this one take in a stream, which begins with them.
fn length_before(bytes: &[u8], tick: u64) -> usize
    requires { (uploads : List Entry) × UploadList bytes.now uploads }
    ensures split { (uploads : List Entry) → UploadList bytes.now uploads → IsSplitAt tick uploads result }
    ensures within { result ≤ length bytes.now }
{
    let mut from = Cursor::over(bytes);
    'each: while from.left() > 0 {
        let mut behind = from.copy();
        match entry_ahead(&mut behind) {
            Ok(upload) if upload.tick < tick => from = behind,
            _ => return from.place(),
        }
    }
    from.place()
}

impl<'a> Uploads<'a> {
    /// Tests a stream to its end, and gives its uploads. It takes no memory, and no module is copied. Ticks
    /// may be equal.
    pub fn read(bytes: &'a [u8]) -> Result<Uploads<'a>, BadEntry>
        ensures list { IfOk result (λ uploads. UploadList bytes.entry.now uploads) }
        ensures bad { IfErr result (λ e. IsFirstBad bytes.entry.now e.place) }
    {
        test_stream(bytes)?;
        Ok(Uploads { bytes })
    }

    /// The same uploads once more.
    pub fn copy(&self) -> Uploads<'a>
        ensures { result ≡ self.now }
    {
        Uploads { bytes: self.bytes }
    }

    /// Takes the first upload.
    pub fn next(&mut self) -> Option<Upload<'a>>
        ensures some { IfSome result (λ upload. self.old ≡ upload_of upload ∷ self.new) }
        ensures form { IfSome result (λ upload. HasEntryForm (upload_of upload)) }
        ensures none { IfNone result (self.old ≡ []) }
        ensures left { IfNone result (self.new ≡ self.old) }
    {
        let bytes: &'a [u8] = self.bytes;
        let mut from = Cursor::over(bytes);
        let Ok(upload) = entry_ahead(&mut from) else {
            return None;
        };
        self.bytes = &bytes[from.place()..];
        Some(upload)
    }

    /// Takes the uploads of a tick. Those of earlier ticks are passed over. It takes time for the uploads
    /// that are taken and passed over.
    pub fn take_tick(&mut self, tick: u64) -> Uploads<'a>
        requires { tick < 2 ^ 64 - 1 }
        ensures taken { result ≡ uploads_at tick self.old }
        ensures left { self.new ≡ uploads_after tick self.old }
    {
        let bytes: &'a [u8] = self.bytes;
        let from = &bytes[length_before(bytes, tick)..];
        let count = length_before(from, tick + 1);
        self.bytes = &from[count..];
        Uploads {
            bytes: &from[..count],
        }
    }
}
