ghost use Rattle.std.specs.Prelude.{◌≡◌, None};

use bb_edge::{DirStore, Fail, MemSink, MemStore, OutSink, Sink, Step, Store, SureSink, SureStore};
use std::alloc::{AllocError, Global};
use std::test::Fail as TestFail;

/// Whether a name could be begun and a piece be read.
fn reads<S: Store>(store: &mut S, name: &str) -> bool
    requires { S.may_read name.now }
    ensures { S.writing store.new ≡ S.writing store.old }
{
    store.begin(name).is_ok() && store.piece(&mut [0u8; 8]).is_ok()
}

/// Whether a name could be written.
fn writes<S: Store>(store: &mut S, name: &str, bytes: &[u8]) -> bool
    requires free { S.writing store.old ≡ None }
    requires may { S.may_write name.now }
    ensures { S.writing store.new ≡ None }
{
    store.put_begin(name).is_ok() && store.put_piece(bytes).is_ok() && store.put_end().is_ok()
}

/// The lengths of four pieces of a name, at most three bytes each, and all their bytes.
fn pieces<S: Store>(store: &mut S, name: &str) -> Option<([usize; 4], [u8; 12])>
    requires { S.may_read name.now }
{
    store.begin(name).ok()?;
    let mut lengths = [0usize; 4];
    let mut bytes = [0u8; 12];
    for k in 0..4 {
        lengths[k] = store.piece(&mut bytes[3 * k..3 * k + 3]).ok()?;
    }
    Some((lengths, bytes))
}

/// Which of two reads and two writes went well where one call fails, and whether the name that was written then holds
/// these bytes.
fn two_reads_and_writes(
    alloc: Global,
    fail: Fail,
    held: &[u8],
) -> Result<([bool; 4], bool), AllocError> {
    let mut store = MemStore::new(alloc, vec![in alloc; fail]?);
    store.set("in", b"text")?;
    let answers = [
        reads(&mut store, "in"),
        reads(&mut store, "in"),
        writes(&mut store, "out", b"one"),
        writes(&mut store, "out", b"two"),
    ];
    Ok((answers, store.get("out") == Some(held)))
}

#[test]
fn a_store_in_memory_fails_at_the_call_that_is_listed(rt: HostRuntime) -> Result<(), TestFail> {
    let rows = [
        (Step::Begin, 0, [false, true, true, true], "two"),
        (Step::Begin, 1, [true, false, true, true], "two"),
        (Step::Piece, 0, [false, true, true, true], "two"),
        (Step::Piece, 1, [true, false, true, true], "two"),
        (Step::PutBegin, 0, [true, true, false, true], "two"),
        (Step::PutBegin, 1, [true, true, true, false], "one"),
        (Step::PutPiece, 0, [true, true, false, true], "two"),
        (Step::PutPiece, 1, [true, true, true, false], ""),
        (Step::PutEnd, 0, [true, true, false, true], "two"),
        (Step::PutEnd, 1, [true, true, true, false], "two"),
    ];
    for (step, nth, answers, held) in rows {
        let outcome = two_reads_and_writes(rt.alloc(), Fail { step, nth }, held.as_bytes())?;
        assert_eq!(rt; outcome, (answers, true), "{step:?} {nth}");
    }
    Ok(())
}

/// Sets two names, and the first once more.
fn set_three_times(store: &mut MemStore) -> Result<(), AllocError> {
    store.set("a", b"one")?;
    store.set("b", b"two")?;
    store.set("a", b"three")
}

#[test]
fn a_name_is_held_from_when_it_is_set(rt: HostRuntime) -> Result<(), TestFail> {
    let mut store = MemStore::new(rt.alloc(), vec![in rt.alloc()]?);
    assert!(rt; !reads(&mut store, "a"));
    assert_eq!(rt; store.get("a"), None);
    set_three_times(&mut store)?;
    assert!(rt; reads(&mut store, "a"));
    assert_eq!(rt; store.get("a"), Some(b"three".as_slice()));
    assert_eq!(rt; store.get("b"), Some(b"two".as_slice()));
    Ok(())
}

#[test]
fn a_text_comes_in_pieces_of_the_buffer(rt: HostRuntime) -> Result<(), TestFail> {
    let mut store = MemStore::new(rt.alloc(), vec![in rt.alloc()]?);
    let rows = [
        ("", [0, 0, 0, 0], b"\0\0\0\0\0\0\0\0\0\0\0\0"),
        ("ab", [2, 0, 0, 0], b"ab\0\0\0\0\0\0\0\0\0\0"),
        ("abcdefg", [3, 3, 1, 0], b"abcdefg\0\0\0\0\0"),
        ("abcdefghi", [3, 3, 3, 0], b"abcdefghi\0\0\0"),
    ];
    for (text, lengths, bytes) in rows {
        store.set("in", text.as_bytes())?;
        assert_eq!(rt;
            pieces(&mut store, "in"),
            Some((lengths, *bytes)),
            "{text:?}"
        );
    }
    Ok(())
}

#[test]
fn a_sink_in_memory_fails_at_the_put_that_is_stated(rt: HostRuntime) {
    let rows = [
        (None, [true, true], "ab"),
        (Some(0), [false, true], "b"),
        (Some(1), [true, false], "a"),
        (Some(2), [true, true], "ab"),
    ];
    for (fail_at, answers, bytes) in rows {
        let mut sink = MemSink::new(rt.alloc(), fail_at);
        assert_eq!(rt; sink.put(b"a").is_ok(), answers[0], "{fail_at:?}");
        assert_eq!(rt; sink.put(b"b").is_ok(), answers[1], "{fail_at:?}");
        assert_eq!(rt; sink.bytes(), bytes.as_bytes(), "{fail_at:?}");
    }
}

#[test]
fn a_sure_store_reads_its_files_and_drops_what_is_written(rt: HostRuntime) -> Result<(), TestFail> {
    let name = String::from_str(rt.alloc(), "in")?;
    let text = Vec::from_slice(rt.alloc(), b"abcd")?;
    let mut store = SureStore::new(rt.alloc(), vec![in rt.alloc(); (name, text)]?);
    assert!(rt; writes(&mut store, "in", b"other"));
    let rows = [
        ("in", [3, 1, 0, 0], b"abcd\0\0\0\0\0\0\0\0"),
        ("out", [0, 0, 0, 0], b"\0\0\0\0\0\0\0\0\0\0\0\0"),
    ];
    for (name, lengths, bytes) in rows {
        assert_eq!(rt;
            pieces(&mut store, name),
            Some((lengths, *bytes)),
            "{name:?}"
        );
    }
    assert!(rt; SureSink::new().put(b"done\n").is_ok());
    Ok(())
}

#[test]
fn a_file_of_the_system_is_written_and_read_back_in_pieces(rt: HostRuntime) {
    let mut store = DirStore::new(rt.alloc(), &rt);
    assert!(rt; !reads(&mut store, "bb_edge_absent.txt"));
    assert!(rt; writes(&mut store, "bb_edge_written.txt", b"abcd"));
    assert_eq!(rt;
        pieces(&mut store, "bb_edge_written.txt"),
        Some(([3, 1, 0, 0], *b"abcd\0\0\0\0\0\0\0\0"))
    );
}

#[test]
fn a_line_is_put_to_standard_output(rt: HostRuntime) {
    assert!(rt; OutSink::new(&rt).put(b"done\n").is_ok());
}
