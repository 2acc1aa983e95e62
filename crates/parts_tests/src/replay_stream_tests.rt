//! Readers and writers over memory: pieces of any size, and calls that move less than is asked.

use replay_stream::{
    Counted, MemSink, MemSource, ReadAllFault, Sink, Source, Stop, WriteFailed, read_all, write_all,
};
use std::test::Fail;

const TEXT: &[u8] = b"a short text";

#[test]
fn reads_all_bytes_in_pieces_of_any_size(rt: HostRuntime) -> Result<(), Fail> {
    for step in 1..14usize {
        let all = read_all(rt.alloc(), &mut MemSource::new(TEXT, step), 12)?;
        assert_eq!(rt; all.as_slice(), TEXT, "{step} bytes a call");
        let answer = read_all(rt.alloc(), &mut MemSource::new(TEXT, step), 11);
        assert!(rt;
            matches!(answer, Err(ReadAllFault::TooLong)),
            "{step} bytes a call"
        );
    }
    let none = read_all(rt.alloc(), &mut MemSource::new(b"", 1), 0)?;
    assert!(rt; none.is_empty());
    Ok(())
}

#[test]
fn a_read_moves_a_piece_or_fails(rt: HostRuntime) {
    let mut buffer = [0u8; 3];
    let mut source = MemSource::stopping(b"abcde", 4, 2, Stop::Fail);
    assert_eq!(rt; source.read(&mut buffer).ok(), Some(3));
    assert_eq!(rt; buffer.as_slice(), b"abc".as_slice());
    assert_eq!(rt; source.read(&mut buffer).ok(), Some(2));
    assert_eq!(rt; buffer.as_slice(), b"dec".as_slice());
    assert_eq!(rt; source.read(&mut buffer).ok(), None);
    assert_eq!(rt; source.read(&mut buffer).ok(), None);
}

#[test]
fn a_full_writer_keeps_what_fits(rt: HostRuntime) {
    let mut room = [0u8; 10];
    let mut sink = MemSink::new(&mut room, 4);
    assert_eq!(rt; write_all(&mut sink, b"pod 0 default/a"), Err(WriteFailed));
    assert_eq!(rt; sink.written(), b"pod 0 defa".as_slice());
    assert_eq!(rt; sink.write(b"more").ok(), Some(0));
}

#[test]
fn readers_and_writers_of_std_are_counted(rt: HostRuntime) -> Result<(), Fail> {
    let mut source = Counted::new(TEXT);
    assert_eq!(rt; read_all(rt.alloc(), &mut source, 12)?.as_slice(), TEXT);
    let mut sink = Counted::new(Vec::new(rt.alloc()));
    assert_eq!(rt; write_all(&mut sink, TEXT), Ok(()));
    assert_eq!(rt; sink.into_inner().as_slice(), TEXT);
    Ok(())
}
