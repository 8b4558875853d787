//! What no clause says: that calls succeed where memory is at hand, and what the adapters do.
use crate::{
    Boxed, DiskFiles, Failed, Files, List, ReadStop, Shelf, StdSink, Tape, read_all, write_all,
};
use std::test::Fail;
use std::{env, fs, process};

/// A file of 17 bytes.
const SOURCE: &[u8; 17] = b"int f(void){x=1;}";

// Call 1 opens the file, calls 2 to 4 read 8, 8 and 1 bytes, and call 5 finds the end.
#[test]
fn a_file_is_read_whole_or_the_stop_has_its_cause(rt: HostRuntime) -> Result<(), Fail> {
    let cases: [(&str, u32, u32, Option<ReadStop>, u64, u64); 4] = [
        ("a.c", 17, 6, None, 0, 5),
        ("a.c", 16, 0, Some(ReadStop::TooLarge), 0, 4),
        ("a.c", 17, 3, Some(ReadStop::Failed), 1, 3),
        ("b.c", 17, 1, Some(ReadStop::Failed), 0, 1),
    ];
    for (name, limit, fails, want, faults, calls) in cases {
        let mut files = Vec::new(rt.alloc());
        files.push((
            String::from_str(rt.alloc(), "a.c")?,
            Vec::from_slice(rt.alloc(), SOURCE)?,
        ))?;
        assert!(rt; Shelf::names_differ(&files));
        let mut shelf = Shelf::new(files, 8, Vec::from_slice(rt.alloc(), &[fails])?);
        let stop = match read_all(rt.alloc(), &mut shelf, name, limit) {
            Ok(bytes) => {
                assert_eq!(rt; bytes.as_slice(), SOURCE.as_slice());
                None
            }
            Err(stop) => Some(stop),
        };
        assert_eq!(rt; stop, want, "{name} within {limit}, call {fails} fails");
        assert_eq!(rt;
            (shelf.faults(), shelf.calls()),
            (faults, calls),
            "{name} within {limit}"
        );
    }
    Ok(())
}

#[test]
fn what_does_not_fit_on_a_tape_is_a_fault(rt: HostRuntime) -> Result<(), Fail> {
    let cases: [(usize, &[u8], Result<(), Failed>, u64); 2] = [
        (16, b"0123456789abcdef", Ok(()), 3),
        (10, b"0123456789", Err(Failed), 3),
    ];
    for (room, want, result, writes) in cases {
        let mut tape = Tape::new(rt.alloc(), room, 7, Vec::new(rt.alloc()))?;
        assert_eq!(rt; write_all(&mut tape, b"0123456789abcdef"), result);
        assert_eq!(rt; tape.took(), want);
        assert_eq!(rt; tape.writes(), writes);
    }
    Ok(())
}

/// A type that holds itself, through a `List` and through a `Boxed`.
#[derive(Debug, Drop)]
enum Tree {
    Leaf(u8),
    Not(Boxed<Tree>),
    All(List<Tree>),
}

/// How many leaves a tree has, up to the last value of the type.
fn leaves(tree: &Tree) -> u32 {
    match tree {
        Tree::Leaf(_) => 1,
        Tree::Not(inner) => leaves(inner.get()),
        Tree::All(parts) => {
            let mut count = 0u32;
            for part in parts.items() {
                count = count.saturating_add(leaves(part));
            }
            count
        }
    }
}

#[test]
fn a_type_may_hold_itself_through_a_list_and_a_box(rt: HostRuntime) -> Result<(), Fail> {
    let mut parts = List::new(rt.alloc());
    parts.push(Tree::Leaf(1))?;
    parts.push(Tree::Not(Boxed::new(rt.alloc(), Tree::Leaf(2))?))?;
    let mut all = List::new(rt.alloc());
    all.push(Tree::All(parts))?;
    all.push(Tree::Leaf(3))?;
    assert_eq!(rt; leaves(&Tree::All(all)), 3);
    Ok(())
}

#[test]
fn a_list_of_one_takes_memory_for_one(rt: HostRuntime) -> Result<(), Fail> {
    let mut list = List::new(rt.alloc());
    list.push(7u32)?;
    assert_eq!(rt; list.into_vec().capacity(), 1);
    Ok(())
}

#[test]
fn the_disk_gives_what_was_written_to_it(rt: HostRuntime) -> Result<(), Fail> {
    let folder = env::temp_dir(&rt)?;
    let folder = folder.to_str().ok_or("the folder has a name")?;
    let id = process::id(rt.process());
    let name = format!(in rt.alloc(); "{folder}/joern_io_{id}.c")?;
    fs::write(&rt, &name, SOURCE)?;
    let mut disk = DiskFiles::new(&rt);
    let bytes = read_all(rt.alloc(), &mut disk, &name, 17)?;
    assert_eq!(rt; bytes.as_slice(), SOURCE.as_slice());
    fs::remove_file(&rt, &name)?;
    assert_eq!(rt; disk.open(&name), Err(Failed));
    assert_eq!(rt; disk.open(folder), Ok(()));
    assert_eq!(rt; disk.read(&mut [0]), Err(Failed));
    Ok(())
}

#[test]
fn standard_output_takes_a_line(rt: HostRuntime) {
    assert_eq!(rt; write_all(&mut StdSink::new(&rt), b"a line\n"), Ok(()));
}
