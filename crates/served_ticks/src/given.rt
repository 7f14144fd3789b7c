// The uploads that a tick took from a hub, as a stream of uploads for that tick.
ghost use Rattle.std.specs.Prelude.{◌≡◌, ◌++◌, IfOk, OnOk};
ghost use Rattle.upload_stream.specs.Streams.{HasEntryForm, UploadList, entry_bytes};
ghost use Rattle.served_ticks.specs.Given.{sent_at};

use crate::NoMemory;
use byte_fields::{put_u32, put_u64};
use std::alloc::Global;
use world_bytes::put_length;
use world_hub::Upload;

/// The stream of these uploads for a tick, in their order. It takes memory for a copy of them.
pub(crate) fn stream_of(alloc: Global, tick: u64, taken: &[Upload]) -> Result<Vec<u8>, NoMemory>
    ensures { IfOk result (λ stream. UploadList stream.items (sent_at tick taken.now)) }
{
    let mut stream = Vec::new(alloc);
    for upload in taken {
        put_upload(tick, upload.player, &upload.bytes, &mut stream)?;
    }
    Ok(stream)
}

// Adds an upload to a stream. One of 2^32 bytes or more is want of memory.
fn put_upload(tick: u64, player: u32, bytes: &[u8], stream: &mut Vec<u8>) -> Result<(), NoMemory>
    ensures written { OnOk result (stream.new.items ≡ stream.old.items
        ++ entry_bytes (record { tick = tick; player = player; bytes = bytes.now })) }
    ensures form { OnOk result (HasEntryForm (record { tick = tick; player = player; bytes = bytes.now })) }
{
    put_u64(stream, tick)?;
    put_u32(stream, player)?;
    put_length(bytes.len() as u64, stream)?;
    stream.extend_from_slice(bytes)
}
