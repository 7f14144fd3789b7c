// The values of an image.
ghost use Rattle.std.specs.Prelude.{◌≡◌, ℕ, ◌+◌, ◌-◌, ◌<◌, ◌≤◌, ◌^◌, ◌++◌, List, Option, Some, None};
ghost use Rattle.std.specs.Prelude.{length, map, take, drop, slice_index_or, All, AllPairs, Any};
ghost use Rattle.wasm_module.specs.Entries.{element_view, segment_view};
ghost use Rattle.wasm_store.specs.Memory.{Memory};
ghost use Rattle.wasm_link.specs.Linking.{Fits, first_table, with_segments};
ghost use Rattle.wasm_link.specs.Made.{element_span, data_span};
ghost use Rattle.wasm_link.specs.declared.image.Stretch.{Stretch};
ghost use Rattle.wasm_link.specs.inner.Images.{IsBefore, IsAt, Valued, IsIn, IsCovered, Stands, put};

use crate::constants::value_of;
use crate::image::Stretch;
use wasm_module::{Element, Segment};

/// How many stretches begin at an entry or before it: the last of them has the entry, if any has.
fn count_upto(stretches: &[Stretch], entry: usize) -> usize
    requires { AllPairs IsBefore stretches.now }
    ensures { (k : ℕ) (d : Stretch) → k < length stretches.now → IsAt entry (slice_index_or stretches.now k d)
        → result ≡ k + 1 }
{
    stretches.partition_point(|stretch| stretch.start <= entry)
}

/// The place of an entry of a stretch among the values.
fn place_of(stretches: &[Stretch], entry: usize) -> usize
    requires apart { AllPairs IsBefore stretches.now }
    requires small { All (Valued (2 ^ 32)) stretches.now }
    requires there { Any (IsAt entry) stretches.now }
    ensures { All (λ stretch. IsAt entry stretch → result ≡ stretch.base + (entry - stretch.start))
        stretches.now }
{
    let stretch = stretches[count_upto(stretches, entry) - 1];
    stretch.base + (entry - stretch.start)
}

/// How many values stretches have.
pub(crate) fn count_of(stretches: &[Stretch]) -> usize
    requires apart { AllPairs IsBefore stretches.now }
    requires small { All (Valued (2 ^ 32)) stretches.now }
    ensures { All (Valued result) stretches.now }
{
    match stretches.last() {
        Some(stretch) => stretch.base + stretch.len,
        None => 0,
    }
}

/// Writes bytes from an entry on.
fn write_bytes(values: &mut [u8], stretches: &[Stretch], offset: usize, bytes: &[u8])
    requires apart { AllPairs IsBefore stretches.now }
    requires small { All (Valued (2 ^ 32)) stretches.now }
    requires valued { All (Valued (length values.old)) stretches.now }
    requires held { IsIn stretches.now offset (length bytes.now) }
    ensures len { length values.new ≡ length values.old }
    ensures written { (content : List ℕ) → offset + length bytes.now ≤ length content
        → Stands 0 stretches.now values.old content
        → Stands 0 stretches.now values.new (put content offset bytes.now) }
{
    if bytes.is_empty() {
        return;
    }
    let at = place_of(stretches, offset);
    values[at..at + bytes.len()].copy_from_slice(bytes);
}

/// Writes functions from a place among the values on.
fn fill(values: &mut [Option<u32>], at: usize, funcs: &[u32])
    requires { at + length funcs.now ≤ length values.old }
    ensures { values.new ≡ take at values.old
        ++ (map Some funcs.now ++ drop (at + length funcs.now) values.old) }
{
    let mut step = 0usize;
    while step < funcs.len() {
        values[at + step] = Some(funcs[step]);
        step += 1;
    }
}

/// Writes functions from an entry on.
fn write_funcs(values: &mut [Option<u32>], stretches: &[Stretch], offset: usize, funcs: &[u32])
    requires apart { AllPairs IsBefore stretches.now }
    requires small { All (Valued (2 ^ 32)) stretches.now }
    requires valued { All (Valued (length values.old)) stretches.now }
    requires held { IsIn stretches.now offset (length funcs.now) }
    ensures len { length values.new ≡ length values.old }
    ensures written { (content : List (Option ℕ)) → offset + length funcs.now ≤ length content
        → Stands None stretches.now values.old content
        → Stands None stretches.now values.new (put content offset (map Some funcs.now)) }
{
    if funcs.is_empty() {
        return;
    }
    fill(values, place_of(stretches, offset), funcs);
}

/// Writes the bytes of segments, one after the other.
pub(crate) fn write_segments(values: &mut [u8], stretches: &[Stretch], segments: &[Segment])
    requires apart { AllPairs IsBefore stretches.now }
    requires small { All (Valued (2 ^ 32)) stretches.now }
    requires valued { All (Valued (length values.old)) stretches.now }
    requires held { All (λ segment. IsCovered stretches.now (data_span 0 segment)) segments.now }
    ensures len { length values.new ≡ length values.old }
    ensures written { (memory : Memory)
        → All (λ segment. Fits (data_span (length memory.bytes) segment)) segments.now
        → Stands 0 stretches.now values.old memory.bytes
        → Stands 0 stretches.now values.new (with_segments memory (map segment_view segments.now)).bytes }
{
    let mut at = 0usize;
    while at < segments.len() {
        let segment = &segments[at];
        let offset = value_of(&segment.offset) as usize;
        write_bytes(values, stretches, offset, segment.bytes.as_slice());
        at += 1;
    }
}

/// Writes the functions of segments, one after the other.
pub(crate) fn write_elements(
    values: &mut [Option<u32>],
    stretches: &[Stretch],
    elements: &[Element],
)
    requires apart { AllPairs IsBefore stretches.now }
    requires small { All (Valued (2 ^ 32)) stretches.now }
    requires valued { All (Valued (length values.old)) stretches.now }
    requires held { All (λ segment. IsCovered stretches.now (element_span 0 segment)) elements.now }
    ensures len { length values.new ≡ length values.old }
    ensures written { (table : List (Option ℕ))
        → All (λ segment. Fits (element_span (length table) segment)) elements.now
        → Stands None stretches.now values.old table
        → Stands None stretches.now values.new (first_table table (map element_view elements.now)) }
{
    let mut at = 0usize;
    while at < elements.len() {
        let segment = &elements[at];
        let offset = value_of(&segment.offset) as usize;
        write_funcs(values, stretches, offset, segment.funcs.as_slice());
        at += 1;
    }
}
