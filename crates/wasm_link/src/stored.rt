// The store of an instance.
ghost use Rattle.std.specs.Prelude.{◌≡◌, ◌<◌, ◌^◌, ℕ, List, Option, length, All, IfOk, None};
ghost use Rattle.wasm_store.specs.Memory.{Memory};
ghost use Rattle.wasm_link.specs.Linking.{first_memory, table_size};
ghost use Rattle.wasm_link.specs.Made.{IsSmall};
ghost use Rattle.wasm_link.specs.inner.Images.{Ends, Valued, Stands};

use crate::image::Image;
use crate::segments::least_size;
use std::alloc::{AllocError, Global};
use wasm_module::Bounds;
use wasm_store::{FuncTable, GlobalValues, Pages};

/// The memory, the globals and the table of an instance: WebAssembly Core 1.0, chapter 4.2.3.
#[derive(Drop)]
pub struct Stored {
    pub pages: Pages,
    pub globals: GlobalValues,
    pub table: FuncTable,
}

/// The most pages that a memory may grow to where its type says none.
const MOST_PAGES: u32 = 256;

/// A memory of these limits, or of no page where there are none.
fn first_pages(alloc: Global, memories: &[Bounds]) -> Result<Pages, AllocError>
    requires { All IsSmall memories.now }
    ensures { IfOk result (λ pages. pages ≡ first_memory memories.now) }
{
    match memories.first() {
        Some(bounds) => {
            let most = match bounds.max {
                Some(most) => most,
                None => MOST_PAGES,
            };
            Pages::new(alloc, bounds.min, most)
        }
        None => Pages::new(alloc, 0, 0),
    }
}

/// The memory that an image stands for, zeros but for its stretches.
pub(crate) fn memory_of(
    alloc: Global,
    memories: &[Bounds],
    image: &Image<u8>,
) -> Result<Pages, AllocError>
    requires small { All IsSmall memories.now }
    requires ends { All (Ends (length (first_memory memories.now).bytes)) image.now.stretches.items }
    requires valued { All (Valued (length image.now.values.items)) image.now.stretches.items }
    ensures { IfOk result
        (λ pages. (memory : Memory) → length memory.bytes ≡ length (first_memory memories.now).bytes
        → memory.limit ≡ (first_memory memories.now).limit
        → Stands 0 image.now.stretches.items image.now.values.items memory.bytes → pages ≡ memory) }
{
    let stretches = image.stretches.as_slice();
    let values = image.values.as_slice();
    let mut pages = first_pages(alloc, memories)?;
    let mut at = 0usize;
    while at < stretches.len() {
        let stretch = stretches[at];
        let end = stretch.base + stretch.len;
        pages.write_span(stretch.start as u64, &values[stretch.base..end]);
        at += 1;
    }
    Ok(pages)
}

/// The table that an image stands for, empty but for its stretches.
pub(crate) fn table_of(
    alloc: Global,
    tables: &[Bounds],
    image: &Image<Option<u32>>,
) -> Result<FuncTable, AllocError>
    requires small { table_size tables.now < 2 ^ 32 }
    requires ends { All (Ends (table_size tables.now)) image.now.stretches.items }
    requires valued { All (Valued (length image.now.values.items)) image.now.stretches.items }
    ensures { IfOk result
        (λ table. (content : List (Option ℕ)) → length content ≡ table_size tables.now
        → Stands None image.now.stretches.items image.now.values.items content → table ≡ content) }
{
    let stretches = image.stretches.as_slice();
    let values = image.values.as_slice();
    let mut table = FuncTable::new(alloc, least_size(tables))?;
    let mut at = 0usize;
    while at < stretches.len() {
        let stretch = stretches[at];
        let end = stretch.base + stretch.len;
        table.write_span(stretch.start as u32, &values[stretch.base..end]);
        at += 1;
    }
    Ok(table)
}
