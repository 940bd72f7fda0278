//! Devices in memory that fail at a numbered call.
use kasa_edge::{Failed, FetchFault, Shelf, ShelfMem, Sink, SinkMem};
use std::test::Fail;

#[test]
fn a_shelf_in_memory_fails_its_listed_calls(rt: HostRuntime) -> Result<(), Fail> {
    let alloc = rt.alloc();
    let mut shelf = ShelfMem::new(alloc, vec![in alloc; 2u32, 5u32]?);
    shelf.put("a", b"Hello")?;
    shelf.put("b", b"")?;
    let rows: [(&str, usize, Result<&str, FetchFault>); 7] = [
        ("a", 9, Ok("Hello")),
        ("a", 9, Err(FetchFault::Failed)),
        ("a", 2, Ok("Hel")),
        ("c", 9, Err(FetchFault::Failed)),
        ("b", 9, Err(FetchFault::Failed)),
        ("b", 0, Ok("")),
        ("a", 4, Ok("Hello")),
    ];
    for (name, most, want) in rows {
        match (shelf.fetch(name, most), want) {
            (Ok(bytes), Ok(text)) => assert_eq!(rt; bytes.as_slice(), text.as_bytes(), "{name}"),
            (Err(fault), Err(other)) => assert!(rt; fault == other, "{name}"),
            _ => assert!(rt; false, "{name}, {most}"),
        }
    }
    shelf.put("a", b"again")?;
    assert_eq!(rt; shelf.held("a"), Some(b"again".as_slice()));
    assert_eq!(rt; shelf.held("c"), None);
    Ok(())
}

#[test]
fn a_sink_in_memory_fails_its_listed_calls_and_when_full(rt: HostRuntime) -> Result<(), Fail> {
    let alloc = rt.alloc();
    let mut sink = SinkMem::new(alloc, 6, 4, vec![in alloc; 2u32]?)?;
    assert!(rt; sink.write(b"lemmas") == Ok(4));
    assert!(rt; sink.write(b"as") == Err(Failed));
    assert!(rt; sink.write(b"a") == Ok(1));
    assert!(rt; sink.write(b"s\n") == Ok(1));
    assert!(rt; sink.write(b"\n") == Err(Failed));
    assert_eq!(rt; sink.taken(), b"lemmas".as_slice());
    Ok(())
}
