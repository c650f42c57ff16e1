// The files and the standard streams of the system, which no contract can speak of.
use river_outside::{FetchFault, FileShelf, ReadFault, Shelf, StdSink, fetch, put_all};
use std::test::Fail;
use std::{env, fs, process};

const TWICE: &[u8] = b"int->int filter Twice { work push 1 pop 1 { push(2 * pop()); } }";

const TWICE_8_TO_16: &[u8] = b" filter ";

const OUT: &[u8] = b"# out\n2\n";

#[test]
fn files_of_the_system(rt: HostRuntime) -> Result<(), Fail> {
    let alloc = rt.alloc();
    let folder = env::temp_dir(&rt)?;
    let folder = folder.to_str().ok_or("no text")?;
    let name = format!(in alloc; "{folder}/system_tests_{}", process::id(rt.process()))?;
    fs::write(&rt, name.as_str(), TWICE)?;
    let absent = format!(in alloc; "{}_absent", name.as_str())?;

    let mut shelf = FileShelf::new(&rt, alloc);
    let bytes = fetch(alloc, &mut shelf, name.as_bytes(), 64);
    assert!(rt; matches!(&bytes, Ok(bytes) if bytes.as_slice() == TWICE));
    assert!(rt;
        matches!(
            fetch(alloc, &mut shelf, name.as_bytes(), 63),
            Err(FetchFault::Large)
        )
    );
    assert!(rt;
        matches!(
            fetch(alloc, &mut shelf, absent.as_bytes(), 64),
            Err(FetchFault::Absent)
        )
    );
    assert!(rt;
        matches!(
            fetch(alloc, &mut shelf, folder.as_bytes(), 64),
            Err(FetchFault::Failed)
        )
    );
    assert!(rt;
        matches!(
            fetch(alloc, &mut shelf, b"\xff", 64),
            Err(FetchFault::Failed)
        )
    );
    let again = fetch(alloc, &mut shelf, name.as_bytes(), 4096);
    assert!(rt; matches!(&again, Ok(bytes) if bytes.as_slice() == TWICE));

    // Only the place that the last read left goes on.
    let mut piece = [0u8; 8];
    assert_eq!(rt; shelf.read(name.as_bytes(), 0, &mut piece), Ok(8));
    assert_eq!(rt; shelf.read(name.as_bytes(), 8, &mut piece), Ok(8));
    assert_eq!(rt; piece.as_slice(), TWICE_8_TO_16);
    assert_eq!(rt;
        shelf.read(name.as_bytes(), 8, &mut piece),
        Err(ReadFault::Failed)
    );
    fs::remove_file(&rt, name.as_str())?;
    Ok(())
}

#[test]
fn streams_of_the_system(rt: HostRuntime) -> Result<(), Fail> {
    let mut out = StdSink::new(rt.stdout());
    assert!(rt; put_all(&mut out, b"written by a test\n").is_ok());
    // Over a writer of memory the bytes can be seen.
    let mut list: Vec<u8> = Vec::new(rt.alloc());
    let mut sink = StdSink::new(&mut list);
    assert!(rt; put_all(&mut sink, b"# out\n").is_ok());
    assert!(rt; put_all(&mut sink, b"2\n").is_ok());
    drop(sink);
    assert_eq!(rt; list.as_slice(), OUT);
    Ok(())
}
