//! Runs over files and a sink in memory: what they print, and how they end.

ghost use Rattle.std.specs.Prelude.{◌≤◌};

use crate::layers::{BLANK, LAYERS};
use c_lexer::MAX_FILE_BYTES;
use joern_io::{Shelf, Tape};
use joern_top::{Reason, Status, What, joern_one};
use std::alloc::{AllocError, Global};
use std::test::Fail;

/// How a run over files in memory ended.
#[derive(Drop)]
struct Run {
    status: Status,
    out: Tape,
    files: Shelf,
}

/// A shelf of the file `a.c` with these bytes.
fn shelf(alloc: Global, bytes: Vec<u8>, piece: usize, fails: &[u32]) -> Result<Shelf, AllocError>
    requires { 1 ≤ piece }
{
    let mut files = Vec::new(alloc);
    files.push((String::from_str(alloc, "a.c")?, bytes))?;
    Ok(Shelf::new(files, piece, Vec::from_slice(alloc, fails)?))
}

/// Runs `joern_one` on these words and files, and a tape that takes at most `piece` bytes in one
/// write.
fn run_on(
    alloc: Global,
    words: &[&str],
    mut files: Shelf,
    piece: usize,
    fails: &[u32],
) -> Result<Run, AllocError>
    requires { 1 ≤ piece }
{
    let mut owned = Vec::new(alloc);
    for word in words {
        owned.push(String::from_str(alloc, word)?)?;
    }
    let mut out = Tape::new(alloc, 4096, piece, Vec::from_slice(alloc, fails)?)?;
    let status = joern_one(alloc, &owned, &mut files, &mut out);
    Ok(Run { status, out, files })
}

/// Dumps `a.c` with these bytes, and nothing fails.
fn dump(alloc: Global, bytes: &[u8]) -> Result<Run, AllocError> {
    let files = shelf(alloc, Vec::from_slice(alloc, bytes)?, 8, &[])?;
    run_on(alloc, &["--do", "dump", "a.c"], files, 64, &[])
}

#[test]
fn a_source_has_the_lines_of_its_layer(rt: HostRuntime) -> Result<(), Fail> {
    for (source, lines) in LAYERS {
        let run = dump(rt.alloc(), source.as_bytes())?;
        assert_eq!(rt; run.status, Status::Ok, "{source}");
        assert_eq!(rt; run.status.code(), 0);
        assert_eq!(rt; run.out.took(), lines.as_bytes(), "{source}");
    }
    Ok(())
}

#[test]
fn a_refused_source_is_blamed_at_its_byte(rt: HostRuntime) -> Result<(), Fail> {
    let cases: [(&str, u32, Reason, &str); 16] = [
        ("int f(void){x=$;}", 14, Reason::Byte, "1:15 byte"),
        ("\n\n$", 2, Reason::Byte, "3:1 byte"),
        ("x='';", 2, Reason::Byte, "1:3 byte"),
        // The line is that of the text, and not the one that the marker says.
        ("# 7 \"x.c\"\nint $", 14, Reason::Byte, "2:5 byte"),
        ("int /* x", 4, Reason::Unclosed, "1:5 unclosed"),
        ("x;\n\"a", 3, Reason::Unclosed, "2:1 unclosed"),
        (
            "int a;\nint __attribute__((b) c;",
            11,
            Reason::Attribute,
            "2:5 attribute",
        ),
        // The token before it is not kept.
        (
            "__extension__ __attribute__((",
            14,
            Reason::Attribute,
            "1:15 attribute",
        ),
        // A byte comes before an `__attribute__`, also where that stands further in front.
        ("__attribute__(( $", 16, Reason::Byte, "1:17 byte"),
        ("x", 0, Reason::Unbuilt, "1:1 unbuilt"),
        ("\n ;", 0, Reason::Unbuilt, "1:1 unbuilt"),
        ("struct s { int a[3]; };", 0, Reason::Unbuilt, "1:1 unbuilt"),
        ("int f(void){x=1*2;}", 0, Reason::Unbuilt, "1:1 unbuilt"),
        ("char f(void){}", 0, Reason::Unbuilt, "1:1 unbuilt"),
        (
            "int f(void){} int f(void){}",
            0,
            Reason::Unbuilt,
            "1:1 unbuilt",
        ),
        ("int f(void){a+b=c;}", 0, Reason::Unbuilt, "1:1 unbuilt"),
    ];
    for (source, at, reason, blamed) in cases {
        let run = dump(rt.alloc(), source.as_bytes())?;
        let file = 0;
        assert_eq!(rt;
            run.status,
            Status::SourceRefused { file, at, reason },
            "{source}"
        );
        assert_eq!(rt; run.status.code(), 3);
        let line = format!(in rt.alloc(); "refused a.c:{blamed}\n")?;
        assert_eq!(rt; run.out.took(), line.as_bytes(), "{source}");
    }
    Ok(())
}

#[test]
fn words_that_give_no_command_open_nothing(rt: HostRuntime) -> Result<(), Fail> {
    let cases: [&[&str]; 9] = [
        &[],
        &["--do", "dump"],
        &["--do=dump", "a.c"],
        &["--do", "dump", ""],
        &["--do", "dump", "-a.c"],
        &["--do", "dump", "-"],
        &["--do", "stats", "a.c"],
        &["dump", "--do", "a.c"],
        &["--do", "dump", "a.c", "b.c"],
    ];
    for words in cases {
        let files = shelf(rt.alloc(), Vec::new(rt.alloc()), 8, &[])?;
        let run = run_on(rt.alloc(), words, files, 64, &[])?;
        assert_eq!(rt; run.status, Status::Usage, "{words:?}");
        assert_eq!(rt; run.status.code(), 2);
        assert_eq!(rt; run.out.took(), b"usage\n".as_slice(), "{words:?}");
        assert_eq!(rt; run.files.calls(), 0, "{words:?}");
    }
    Ok(())
}

// The calls are open, read, read: the third is in mid-file. A name that is not held is no fault of
// the files.
#[test]
fn a_file_that_cannot_be_read_is_named(rt: HostRuntime) -> Result<(), Fail> {
    let cases: [(&str, u32, &[u8], u64); 3] = [
        ("a.c", 3, b"read fault a.c\n", 1),
        ("a.c", 1, b"read fault a.c\n", 1),
        ("b c%.c", 0, b"read fault b%20c%25.c\n", 0),
    ];
    for (name, fails, line, faults) in cases {
        let bytes = Vec::from_elem(rt.alloc(), b' ', 17)?;
        let files = shelf(rt.alloc(), bytes, 8, &[fails])?;
        let run = run_on(rt.alloc(), &["--do", "dump", name], files, 64, &[])?;
        assert_eq!(rt;
            run.status,
            Status::ReadFault { name: 0 },
            "{name}, call {fails}"
        );
        assert_eq!(rt; run.status.code(), 6);
        assert_eq!(rt; run.out.took(), line, "{name}, call {fails}");
        assert_eq!(rt; run.files.faults(), faults, "{name}, call {fails}");
    }
    Ok(())
}

#[test]
fn after_a_fault_of_the_sink_nothing_more_is_written(rt: HostRuntime) -> Result<(), Fail> {
    let cases: [(&[&str], usize, u32, &[u8]); 2] = [
        (&["--do", "dump", "a.c"], 1, 11, b"node 0 MET"),
        (&["--do"], 2, 2, b"us"),
    ];
    for (words, piece, fails, took) in cases {
        let files = shelf(rt.alloc(), Vec::new(rt.alloc()), 8, &[])?;
        let run = run_on(rt.alloc(), words, files, piece, &[fails])?;
        assert_eq!(rt; run.status, Status::WriteFault, "{words:?}");
        assert_eq!(rt; run.status.code(), 7);
        assert_eq!(rt; run.out.took(), took, "{words:?}");
        assert_eq!(rt; run.out.writes(), fails as u64, "{words:?}");
    }
    Ok(())
}

#[test]
fn a_file_past_the_limit_is_refused_and_one_at_the_limit_is_not(
    rt: HostRuntime,
) -> Result<(), Fail> {
    let past = Status::Limit {
        what: What::FileBytes,
        at: 0,
    };
    let cases: [(usize, Status, u8, &[u8]); 2] = [
        (MAX_FILE_BYTES, Status::Ok, 0, BLANK.as_bytes()),
        (MAX_FILE_BYTES + 1, past, 8, b"limit file-bytes 0\n"),
    ];
    for (length, status, code, took) in cases {
        let bytes = Vec::from_elem(rt.alloc(), b' ', length)?;
        let files = shelf(rt.alloc(), bytes, 1 << 20, &[])?;
        let run = run_on(rt.alloc(), &["--do", "dump", "a.c"], files, 64, &[])?;
        assert_eq!(rt; run.status, status, "{length} bytes");
        assert_eq!(rt; run.status.code(), code, "{length} bytes");
        assert_eq!(rt; run.out.took(), took, "{length} bytes");
    }
    Ok(())
}
