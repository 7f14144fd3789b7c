// Each call once, with ample memory.
use std::alloc::{AllocError, Global};
use std::test::Fail;
use wasm_store::{FuncTable, GlobalValues, Pages};

// What a memory answers where it is to grow by these numbers, one after the other.
fn grown(pages: &mut Pages, by: [u32; 4]) -> [Option<u32>; 4] {
    [
        pages.grow(by[0]),
        pages.grow(by[1]),
        pages.grow(by[2]),
        pages.grow(by[3]),
    ]
}

// The size of a memory of one page, what it answers where it is to grow, and its last eight bytes and those
// past its end.
fn seen_of_one(alloc: Global) -> Result<(u32, [Option<u32>; 4], [Option<u64>; 2]), AllocError> {
    let mut pages = Pages::new(alloc, 1, 3)?;
    let size = pages.size();
    let answers = grown(&mut pages, [3, 2, 1, 0]);
    Ok((
        size,
        answers,
        [pages.load(196_600, 8), pages.load(196_601, 8)],
    ))
}

// What a memory without a page answers where it is to grow past the most pages, and to them.
fn grown_from_none(alloc: Global) -> Result<[Option<u32>; 4], AllocError> {
    let mut widest = Pages::new(alloc, 0, u32::MAX)?;
    Ok(grown(&mut widest, [257, 256, 0, 1]))
}

#[test]
fn memory_grows_to_its_limit(rt: HostRuntime) -> Result<(), Fail> {
    let one = (1, [None, Some(1), None, Some(3)], [Some(0), None]);
    assert!(rt; seen_of_one(rt.alloc())? == one);
    assert!(rt; grown_from_none(rt.alloc())? == [None, Some(0), Some(256), None]);
    Ok(())
}

// The first place before this one at which a memory has another byte than 0.
fn first_byte(pages: &Pages, end: u64) -> Option<u64> {
    for at in 0..end {
        if pages.load(at, 1) != Some(0) {
            return Some(at);
        }
    }
    None
}

// The bytes at the ends of five pages, of 256 pages, and behind these.
fn bytes_at_ends(pages: &Pages) -> [Option<u64>; 5] {
    [
        pages.load(0, 1),
        pages.load(327_679, 1),
        pages.load(327_680, 1),
        pages.load(16_777_215, 1),
        pages.load(16_777_216, 1),
    ]
}

#[test]
fn many_pages_begin_at_0_and_grow_to_256(rt: HostRuntime) -> Result<(), Fail> {
    let mut pages = Pages::new(rt.alloc(), 5, 300)?;
    assert_eq!(rt; first_byte(&pages, 327_680), None);
    assert!(rt; pages.store(0, 1, 0x11) && pages.store(327_679, 1, 0x22));
    assert!(rt; (pages.grow(252), pages.grow(251)) == (None, Some(5)));
    assert!(rt; bytes_at_ends(&pages) == [Some(0x11), Some(0x22), Some(0), Some(0), None]);
    Ok(())
}

// What a memory has in the eight bytes at its end, by one, two, four and eight of them.
fn last_bytes(pages: &Pages) -> [Option<u64>; 4] {
    [
        pages.load(65_528, 1),
        pages.load(65_529, 2),
        pages.load(65_530, 4),
        pages.load(65_528, 8),
    ]
}

#[test]
fn memory_is_little_endian(rt: HostRuntime) -> Result<(), Fail> {
    let mut pages = Pages::new(rt.alloc(), 1, 1)?;
    assert!(rt; pages.store(65_528, 8, 0x1122_3344_5566_7788));
    let written = [
        Some(0x88),
        Some(0x6677),
        Some(0x3344_5566),
        Some(0x1122_3344_5566_7788),
    ];
    assert!(rt; last_bytes(&pages) == written);
    assert!(rt; pages.store(65_530, 2, 0xffff_abcd));
    assert!(rt; pages.load(65_528, 8) == Some(0x1122_3344_abcd_7788));
    assert!(rt; !pages.store(65_533, 4, 0) && !pages.store(u64::MAX, 8, 0));
    assert!(rt; pages.load(65_535, 1) == Some(0x11));
    Ok(())
}

#[test]
fn spans_are_read_and_written(rt: HostRuntime) -> Result<(), Fail> {
    let mut pages = Pages::new(rt.alloc(), 1, 1)?;
    assert!(rt; pages.write_span(65_533, b"end"));
    assert!(rt; pages.read_span(65_533, 3) == Some(b"end".as_slice()));
    assert!(rt; pages.read_span(65_536, 0) == Some(b"".as_slice()));
    assert!(rt; pages.read_span(65_534, 3) == None);
    assert!(rt; !pages.write_span(65_534, b"end"));
    Ok(())
}

#[test]
fn variables_begin_at_0(rt: HostRuntime) -> Result<(), Fail> {
    let mut values = GlobalValues::new(rt.alloc(), 1_000)?;
    values.set(1, 7);
    values.set(999, u64::MAX);
    let found = [
        values.get(0),
        values.get(1),
        values.get(998),
        values.get(999),
    ];
    assert!(rt; found == [0, 7, 0, u64::MAX]);
    Ok(())
}

// The entries at the front of a table, at its end and behind that.
fn entries_at_ends(table: &FuncTable) -> [Option<Option<u32>>; 5] {
    [
        table.get(0),
        table.get(1),
        table.get(65_534),
        table.get(65_535),
        table.get(65_536),
    ]
}

#[test]
fn entries_begin_empty(rt: HostRuntime) -> Result<(), Fail> {
    let mut table = FuncTable::new(rt.alloc(), 65_536)?;
    let are_set = (table.set(1, 5), table.set(65_535, 6), table.set(65_536, 7));
    assert!(rt; are_set == (true, true, false));
    let entries = [Some(None), Some(Some(5)), Some(None), Some(Some(6)), None];
    assert!(rt; entries_at_ends(&table) == entries);
    Ok(())
}

#[test]
fn variables_of_values(rt: HostRuntime) -> Result<(), Fail> {
    let mut values = GlobalValues::of(rt.alloc(), &[5, u64::MAX, 7])?;
    values.set(2, 8);
    assert!(rt; [values.get(0), values.get(1), values.get(2)] == [5, u64::MAX, 8]);
    Ok(())
}

// Whether each of these spans is written to a table.
fn are_written(table: &mut FuncTable) -> [bool; 4] {
    [
        table.write_span(1, &[Some(7), None, Some(9)]),
        table.write_span(2, &[None, None, None]),
        table.write_span(4, &[]),
        table.write_span(5, &[]),
    ]
}

// The entries of a table of four, and what is behind them.
fn entries(table: &FuncTable) -> [Option<Option<u32>>; 5] {
    [
        table.get(0),
        table.get(1),
        table.get(2),
        table.get(3),
        table.get(4),
    ]
}

#[test]
fn spans_of_entries_are_written(rt: HostRuntime) -> Result<(), Fail> {
    let mut table = FuncTable::new(rt.alloc(), 4)?;
    assert!(rt; are_written(&mut table) == [true, false, true, false]);
    let found = [Some(None), Some(Some(7)), Some(None), Some(Some(9)), None];
    assert!(rt; entries(&table) == found);
    Ok(())
}
