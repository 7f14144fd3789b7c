// The adapters over files, of which no clause says what they read and write.
use std::alloc::{AllocError, Global};
use std::fs;
use std::io::ErrorKind;
use std::test::Fail;
use world_io::{
    Deed, Disk, Failed, FileDisk, FileSink, FileSource, ReadStop, Sink, Source, StreamSink,
    Trouble, read_all, write_all,
};

// Bytes of several pieces and pages, which differ from place to place, from one place to another.
fn long_text(alloc: Global, from: u32, to: u32) -> Result<Vec<u8>, AllocError> {
    let mut text = Vec::new(alloc);
    for i in from..to {
        text.push((i % 251) as u8)?;
    }
    Ok(text)
}

// What a device was to do when it failed first, and the kind of the system's reason.
fn told(trouble: Option<Trouble>) -> Option<(Deed, ErrorKind)> {
    match trouble {
        Some(first) => Some((first.deed, first.reason.kind())),
        None => None,
    }
}

#[test]
fn a_file_is_written_whole(rt: HostRuntime) -> Result<(), Fail> {
    let path = "world_io_a_sink.bin";
    let mut text = long_text(rt.alloc(), 0, 200_000)?;
    assert!(rt; !text.is_empty());
    fs::write(&rt, path, b"older than all that follows")?;
    let mut sink = FileSink::create(&rt, path);
    assert!(rt; fs::read(&rt, path)?.len() == 0);
    assert!(rt; sink.write(&text) == Ok(200_000));
    write_all(&mut sink, b" and its end")?;
    text.extend_from_slice(b" and its end")?;
    assert!(rt; fs::read(&rt, path)?.as_slice() == text.as_slice());
    fs::remove_file(&rt, path)?;
    Ok(())
}

#[test]
fn a_file_is_read_whole(rt: HostRuntime) -> Result<(), Fail> {
    let path = "world_io_a_source.bin";
    let text = long_text(rt.alloc(), 0, 200_000)?;
    fs::write(&rt, path, text.as_slice())?;
    let mut source = FileSource::open(&rt, path);
    assert!(rt; read_all(rt.alloc(), &mut source, 200_000)?.as_slice() == text.as_slice());
    assert!(rt; source.read(&mut [0u8; 4]) == Ok(0));
    fs::remove_file(&rt, path)?;
    Ok(())
}

#[test]
fn a_file_is_read_from_a_place(rt: HostRuntime) -> Result<(), Fail> {
    let path = "world_io_a_place.bin";
    fs::write(&rt, path, long_text(rt.alloc(), 0, 200_000)?.as_slice())?;
    let mut disk = FileDisk::open(&rt, path);
    let mut buf = vec![in rt.alloc(); 0u8; 199_990]?;
    assert!(rt; disk.read(10, &mut buf) == Ok(199_990));
    assert!(rt; buf.as_slice() == long_text(rt.alloc(), 10, 200_000)?.as_slice());
    assert!(rt; disk.read(199_990, &mut buf) == Ok(10));
    assert!(rt; disk.read(200_000, &mut buf) == Ok(0));
    fs::remove_file(&rt, path)?;
    Ok(())
}

#[test]
fn a_disk_is_the_file_at_its_path(rt: HostRuntime) -> Result<(), Fail> {
    let path = "world_io_a_disk.bin";
    {
        let mut made = FileDisk::open_or_make(&rt, path);
        assert!(rt; made.len() == Ok(0));
        made.write_at(0, &long_text(rt.alloc(), 0, 200_000)?)?;
        // It is nobody else's as long as it is open.
        let mut second = FileDisk::open_or_make(&rt, path);
        assert!(rt; second.len() == Err(Failed));
        assert!(rt; told(second.trouble()) == Some((Deed::Lock, ErrorKind::WouldBlock)));
        assert!(rt; FileDisk::open(&rt, path).len() == Ok(200_000));
        assert!(rt; told(made.trouble()) == None);
    }
    let mut disk = FileDisk::open_or_make(&rt, path);
    assert!(rt; disk.len() == Ok(200_000));
    disk.write_at(199_999, b"over the end")?;
    disk.write_at(0, b"front")?;
    disk.cut(200_009)?;
    disk.sync()?;
    let mut want = b"front".to_vec(rt.alloc())?;
    want.extend_from_slice(&long_text(rt.alloc(), 5, 199_999)?)?;
    want.extend_from_slice(b"over the e")?;
    let mut only_read = FileDisk::open(&rt, path);
    assert!(rt; only_read.write_at(0, b"x") == Err(Failed));
    assert!(rt; only_read.cut(0) == Err(Failed));
    assert!(rt; only_read.trouble().map(|first| first.deed) == Some(Deed::Write));
    assert!(rt; fs::read(&rt, path)?.as_slice() == want.as_slice());
    fs::remove_file(&rt, path)?;
    Ok(())
}

#[test]
fn fails_where_no_file_opens(rt: HostRuntime) -> Result<(), Fail> {
    let path = "world_io_no_folder/file";
    let mut source = FileSource::open(&rt, path);
    assert!(rt;
        read_all(rt.alloc(), &mut source, 9).map(|text| text.len()) == Err(ReadStop::Fault)
    );
    let no_file = Some((Deed::Open, ErrorKind::NotFound));
    assert!(rt; told(source.trouble()) == no_file);
    let mut sink = FileSink::create(&rt, path);
    assert!(rt; sink.write(b"x") == Err(Failed));
    assert!(rt; told(sink.trouble()) == no_file);
    assert!(rt; FileDisk::open(&rt, "world_io_no_file").len() == Err(Failed));
    let mut disk = FileDisk::open_or_make(&rt, path);
    assert!(rt; disk.len() == Err(Failed));
    assert!(rt; disk.sync() == Err(Failed));
    assert!(rt; told(disk.trouble()) == no_file);
    let mut output = StreamSink::over(rt.stderr());
    write_all(&mut output, b"")?;
    assert!(rt; output.write(b"\n") == Ok(1));
    assert!(rt; told(output.trouble()) == None);
    Ok(())
}
