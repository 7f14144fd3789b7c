// The uploads of a tick with their results, lent from their stream.
ghost use Rattle.std.specs.Prelude.{◌≡◌, ◌+◌, [], ◌∷◌, length, nat_le, IfSome, IfNone};
ghost use Rattle.std.specs.Prelude.{if◌then◌else◌};
ghost use Rattle.upload_stream.specs.Streams.{module_bytes_bound};
ghost use Rattle.tick_journal.specs.Numbers.{UploadFits};
ghost use Rattle.judged_uploads.specs.Entries.{entry_of};
ghost use Rattle.judged_uploads.specs.Judging.{judged};

use std::marker::Model;
use upload_stream::{Uploads, most_module_bytes};

/// The uploads of a tick with their results, as a journal records them. The uploads are lent from their
/// stream. Contracts see a list of entries.
#[derive(Drop)]
pub struct JudgedUploads<'a> {
    uploads: Uploads<'a>,
    results: Vec<u8>,
}

impl<'a> Model for JudgedUploads<'a> {
    ghost use Rattle.std.specs.Prelude.{◌≡◌, List, length};
    ghost use Rattle.tick_journal.specs.declared.entries.UploadEntry.{UploadEntry};
    ghost use Rattle.judged_uploads.specs.Judging.{judged};

    ghost Value = { List UploadEntry };

    ghost view = { λ j. judged j.uploads j.results.items };

    ghost invariant = { λ j. length j.results.items ≡ length j.uploads };
}

/// What is left of the uploads of a tick when they are gone over. Contracts see it as a list.
#[derive(Drop)]
pub struct JudgedEntries<'a, 'b> {
    uploads: Uploads<'a>,
    results: &'b [u8],
    at: usize,
}

impl<'a, 'b> Model for JudgedEntries<'a, 'b> {
    ghost use Rattle.std.specs.Prelude.{◌≡◌, ◌+◌, List, length, drop};
    ghost use Rattle.tick_journal.specs.declared.entries.UploadEntry.{UploadEntry};
    ghost use Rattle.judged_uploads.specs.Judging.{judged};

    ghost Value = { List UploadEntry };

    ghost view = { λ j. judged j.uploads (drop j.at j.results.now) };

    ghost invariant = { λ j. length j.uploads + j.at ≡ length j.results.now };
}

/// An upload with its result.
#[derive(Clone, Copy)]
pub struct JudgedEntry<'a> {
    /// Who is said to have sent it.
    pub player: u32,
    /// 0 where it is accepted, and else the number of the refusal.
    pub result_number: u8,
    /// The bytes of the module, none where it is longer than a module may be.
    pub bytes: &'a [u8],
}

// The bytes of a module that are recorded.
fn kept_bytes<'a>(bytes: &'a [u8]) -> &'a [u8]
    ensures { result.now ≡ (if nat_le (length bytes.now) module_bytes_bound then bytes.now else []) }
{
    if bytes.len() <= most_module_bytes() as usize {
        bytes
    } else {
        &bytes[..0]
    }
}

impl<'a> JudgedUploads<'a> {
    /// These uploads, with as many numbers of results. It takes no memory.
    pub fn new(uploads: Uploads<'a>, results: Vec<u8>) -> JudgedUploads<'a>
        requires { length results.items ≡ length uploads }
        ensures { result ≡ judged uploads.entry results.items }
    {
        JudgedUploads { uploads, results }
    }

    /// How many they are.
    pub fn count(&self) -> usize
        ensures { result ≡ length self.now }
    {
        self.results.len()
    }

    /// Goes over them in their order.
    pub fn entries<'b>(&'b self) -> JudgedEntries<'a, 'b>
        ensures { result ≡ self.now }
    {
        JudgedEntries {
            uploads: self.uploads.copy(),
            results: self.results.as_slice(),
            at: 0,
        }
    }
}

impl<'a, 'b> JudgedEntries<'a, 'b> {
    /// Takes the first of them.
    pub fn next(&mut self) -> Option<JudgedEntry<'a>>
        ensures some { IfSome result (λ entry. self.old ≡ entry_of entry ∷ self.new) }
        ensures fits { IfSome result (λ entry. UploadFits (entry_of entry)) }
        ensures none { IfNone result (self.old ≡ []) }
        ensures left { IfNone result (self.new ≡ self.old) }
    {
        let upload = self.uploads.next()?;
        let result_number = self.results[self.at];
        self.at += 1;
        Some(JudgedEntry {
            player: upload.player,
            result_number,
            bytes: kept_bytes(upload.bytes),
        })
    }
}
