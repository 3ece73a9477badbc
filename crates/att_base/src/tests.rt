// What no clause says: that calls succeed with ample memory, and that layers above can join the clauses.
ghost use Rattle.std.specs.Prelude.{◌≡◌, ℕ, ◌+◌, ◌^◌, ◌<◌, ◌≤◌, ◌⊎◌, List, length, Some, OnOk, IsOk, IsErrOf};
ghost use Rattle.att_base.specs.Faults.{FaultCountRose};
ghost use Rattle.att_base.specs.Files.{IsName};
ghost use Rattle.att_base.specs.Streams.{put_after};

use super::*;
use std::alloc::{AllocError, Global};
use std::io::{ErrorKind, Read, Write};
use std::process::Abort;
use std::test::Fail;
use std::{env, fs, io};

// Reads all and writes all, as a layer above does. Where no read failed and memory was found, `TooLong` comes
// exactly where more than `limit` bytes were left: `copied` and `too_long` say so together.
fn copy_all<S: Source, K: Sink>(
    alloc: Global,
    source: &mut S,
    sink: &mut K,
    limit: u64,
) -> Result<(), ReadFault>
    requires { limit + 1 < 2 ^ 64 }
    ensures copied { OnOk result ((bytes : List ℕ) → S.left source.old ≡ Some bytes
        → (length bytes ≤ limit) × (K.held sink.new ≡ put_after (K.held sink.old) bytes)) }
    ensures too_long { IsErrOf result ReadFault.TooLong
        → (bytes : List ℕ) → S.left source.old ≡ Some bytes → limit < length bytes }
    ensures failed { IsErrOf result ReadFault.Failed
        → FaultCountRose (S.faults source.old) (S.faults source.new) ⊎ FaultCountRose (K.faults sink.old) (K.faults sink.new) }
    ensures missing { IsErrOf result ReadFault.Missing → ⊥ }
    ensures later { K.faults sink.old ≤ K.faults sink.new }
{
    let bytes = take_all(alloc, source, limit)?;
    let Ok(()) = put_all(sink, &bytes) else {
        return Err(ReadFault::Failed);
    };
    Ok(())
}

#[test]
fn words_keep_their_order(rt: HostRuntime) -> Result<(), Fail> {
    let mut words = Words::new(rt.alloc());
    assert_eq!(rt; words.count(), 0);
    words.push("verify")?;
    words.push("")?;
    words.push("écrit")?;
    assert_eq!(rt; words.count(), 3);
    for (k, want) in ["verify", "", "écrit"].iter().enumerate() {
        assert!(rt; k < words.count());
        assert_eq!(rt; words.word(k), *want);
    }
    Ok(())
}

const TEXT: [u8; 6] = *b"attest";

#[test]
fn takes_up_to_the_limit(rt: HostRuntime) -> Result<(), Fail> {
    let alloc = rt.alloc();
    // The step, the limit, what comes, and what is left.
    let rows = [
        (1, 6, None, 0),
        (4, 6, None, 0),
        (4, 1000, None, 0),
        (1, 5, Some(ReadFault::TooLong), 0),
        (4, 2, Some(ReadFault::TooLong), 3),
        (9, 0, Some(ReadFault::TooLong), 5),
    ];
    for (step, limit, fault, left) in rows {
        let mut source = MemSource::new(TEXT.to_vec(alloc)?, step, Vec::new(alloc));
        match take_all(alloc, &mut source, limit) {
            Ok(bytes) => assert_eq!(rt; (bytes.as_slice(), fault), (TEXT.as_slice(), None)),
            Err(found) => assert_eq!(rt; Some(found), fault, "at limit {limit}"),
        }
        assert_eq!(rt; source.left().len(), left, "at limit {limit}");
    }
    Ok(())
}

#[test]
fn each_read_and_each_write_fails_in_turn(rt: HostRuntime) -> Result<(), Fail> {
    let alloc = rt.alloc();
    for (call, left) in [(0u64, 6usize), (1, 4), (2, 2), (3, 0)] {
        let fails = [call].to_vec(alloc)?;
        let mut source = MemSource::new(TEXT.to_vec(alloc)?, 2, fails);
        assert_eq!(rt;
            take_all(alloc, &mut source, 6).err(),
            Some(ReadFault::Failed)
        );
        assert_eq!(rt; source.left().len(), left, "after call {call}");
        assert_eq!(rt; take_all(alloc, &mut source, 6)?.len(), left);

        let fails = [call].to_vec(alloc)?;
        let mut sink = MemSink::new(alloc, 6, 2, fails)?;
        let wrote = put_all(&mut sink, &TEXT);
        assert_eq!(rt; wrote.is_ok(), call == 3, "at call {call}");
        assert_eq!(rt; sink.held(), &TEXT[..6 - left], "at call {call}");
    }
    Ok(())
}

#[test]
fn a_full_sink_fails(rt: HostRuntime) -> Result<(), Fail> {
    let alloc = rt.alloc();
    let mut source = MemSource::new(TEXT.to_vec(alloc)?, 4, Vec::new(alloc));
    let mut sink = MemSink::new(alloc, 5, 4, Vec::new(alloc))?;
    let copied = copy_all(alloc, &mut source, &mut sink, 6);
    assert_eq!(rt; copied.err(), Some(ReadFault::Failed));
    assert_eq!(rt; sink.held(), b"attes".as_slice());
    assert_eq!(rt; sink.write(b""), Err(Failed));
    Ok(())
}

#[test]
fn streams_of_std_are_streams(rt: HostRuntime) -> Result<(), Fail> {
    let alloc = rt.alloc();
    let mut source = StdSource::new(TEXT.as_slice());
    let mut held = Vec::new(alloc);
    copy_all(alloc, &mut source, &mut StdSink::new(&mut held), 6)?;
    put_all(&mut StdErr::new(&mut held), b"!")?;
    assert_eq!(rt; held.as_slice(), b"attest!".as_slice());

    // A slice takes no more than its length.
    let mut room = [0u8; 4];
    let mut sink = StdSink::new(room.as_mut_slice());
    assert_eq!(rt; put_all(&mut sink, &TEXT), Err(Failed));
    assert_eq!(rt; sink.write(b""), Ok(0));
    Ok(())
}

/// A call is interrupted, one fails, one moves nothing, and each later one moves a byte.
#[derive(Drop)]
struct Faulty {
    calls: u32,
}

impl Faulty {
    fn call(&mut self) -> io::Result<usize> {
        self.calls = self.calls.saturating_add(1);
        match self.calls {
            1 => Err(ErrorKind::Interrupted.into()),
            2 => Err(ErrorKind::Other.into()),
            3 => Ok(0),
            _ => Ok(1),
        }
    }
}

impl Read for Faulty {
    fn read(&mut self, into: &mut [u8]) -> io::Result<usize> {
        Ok(self.call()?.min(into.len()))
    }
}

impl Write for Faulty {
    fn write(&mut self, piece: &[u8]) -> io::Result<usize> {
        Ok(self.call()?.min(piece.len()))
    }

    fn flush(&mut self) -> io::Result<()> {
        Ok(())
    }
}

#[test]
fn no_call_is_tried_again(rt: HostRuntime) {
    let mut source = StdSource::new(Faulty { calls: 0 });
    let mut into = [0u8; 1];
    assert_eq!(rt; source.read(&mut into), Err(Failed));
    assert_eq!(rt; source.read(&mut into), Err(Failed));
    assert_eq!(rt; source.read(&mut into), Ok(0));
    let mut sink = StdSink::new(Faulty { calls: 0 });
    assert_eq!(rt; sink.write(b"!"), Err(Failed));
    assert_eq!(rt; sink.write(b"!"), Err(Failed));
    assert_eq!(rt; sink.write(b"!"), Err(Failed));
    assert_eq!(rt; sink.write(b"!"), Ok(1));
}

#[test]
fn main_can_pass_its_streams(rt: HostRuntime) -> Result<(), Fail> {
    let _input = StdSource::new(rt.stdin());
    put_all(&mut StdSink::new(rt.stdout()), b"")?;
    put_all(&mut StdErr::new(rt.stderr()), b"")?;
    Ok(())
}

// Two files: `a` holds six bytes, `b` none. One call fails.
fn two_files(alloc: Global, fails: u64) -> Result<MemFiles, AllocError> {
    let mut files = Vec::new(alloc);
    files.push(NamedFile::copied(alloc, "a", &TEXT)?)?;
    let name = String::from_str(alloc, "b")?;
    files.push(NamedFile::new(name, Vec::new(alloc)))?;
    let fails = [fails].to_vec(alloc)?;
    Ok(MemFiles::new(alloc, files, fails))
}

// The number of a call that is never made.
const NEVER: u64 = 1_000_000;

// Reads a file whole, as a layer above does.
fn expect_read<F: Files>(
    rt: &impl Abort,
    alloc: Global,
    files: &mut F,
    name: &str,
    limit: u64,
    want: Result<&str, ReadFault>,
) {
    assert!(rt; !name.is_empty() && name.len() <= 255);
    match (read_whole(alloc, files, name, limit), want) {
        (Ok(bytes), Ok(text)) => assert_eq!(rt; bytes.as_slice(), text.as_bytes(), "at {name}"),
        (Err(fault), Err(expected)) => assert_eq!(rt; fault, expected, "at {name}"),
        _ => assert!(rt; false, "at {name}, limit {limit}"),
    }
}

fn expect_bytes(rt: &impl Abort, files: &MemFiles, name: &str, want: &str) {
    match files.bytes_of(name) {
        Some(bytes) => assert_eq!(rt; bytes, want.as_bytes(), "at {name}"),
        None => assert!(rt; false, "at {name}"),
    }
}

#[test]
fn files_in_memory_are_read_and_written(rt: HostRuntime) -> Result<(), Fail> {
    let alloc = rt.alloc();
    names_are_apart();
    let mut files = two_files(alloc, NEVER)?;
    expect_read(&rt, alloc, &mut files, "a", u64::MAX, Ok("attest"));
    expect_read(&rt, alloc, &mut files, "a", 6, Ok("attest"));
    expect_read(&rt, alloc, &mut files, "a", 5, Err(ReadFault::TooLong));
    expect_read(&rt, alloc, &mut files, "b", 0, Ok(""));
    expect_read(&rt, alloc, &mut files, "c", 9, Err(ReadFault::Missing));
    files.append(alloc, "a", b"!")?;
    files.clear(alloc, "c")?;
    files.append(alloc, "d", b"new")?;
    write_whole(alloc, &mut files, "b", b"more")?;
    for (name, want) in [("a", "attest!"), ("b", "more"), ("c", ""), ("d", "new")] {
        expect_bytes(&rt, &files, name, want);
    }
    assert!(rt; files.bytes_of("e").is_none());
    files.clear(alloc, "a")?;
    expect_bytes(&rt, &files, "a", "");
    assert_eq!(rt; files.count(), 4);
    Ok(())
}

// Whether a read, a clear and an append succeed, and what the file has then.
fn expect_turn(
    rt: &impl Abort,
    alloc: Global,
    call: u64,
    want: (bool, bool, bool, &str),
) -> Result<(), AllocError> {
    let (reads, clears, appends, bytes) = want;
    let mut files = two_files(alloc, call)?;
    let read = files.read(alloc, "a", 6).is_ok();
    let cleared = files.clear(alloc, "a").is_ok();
    let appended = files.append(alloc, "a", b"xyz!?").is_ok();
    assert_eq!(rt;
        (read, cleared, appended),
        (reads, clears, appends),
        "at call {call}"
    );
    expect_bytes(rt, &files, "a", bytes);
    Ok(())
}

#[test]
fn each_call_on_files_fails_in_turn(rt: HostRuntime) -> Result<(), Fail> {
    let alloc = rt.alloc();
    expect_turn(&rt, alloc, 0, (false, true, true, "xyz!?"))?;
    expect_turn(&rt, alloc, 1, (true, false, true, "attestxyz!?"))?;
    expect_turn(&rt, alloc, 2, (true, true, false, "xy"))?;
    expect_turn(&rt, alloc, 3, (true, true, true, "xyz!?"))?;
    Ok(())
}

// Writes a file whole. Where that succeeds, the next call is the one that fails: so many calls were made.
fn expect_write(
    rt: &impl Abort,
    alloc: Global,
    call: u64,
    bytes: &str,
    want: Result<&str, &str>,
) -> Result<(), AllocError> {
    let mut files = two_files(alloc, call)?;
    match (write_whole(alloc, &mut files, "a", bytes.as_bytes()), want) {
        (Ok(()), Ok(held)) => {
            expect_bytes(rt, &files, "a", held);
            expect_read(rt, alloc, &mut files, "a", 9, Err(ReadFault::Failed));
        }
        (Err(FileFault::Failed), Err(held)) => expect_bytes(rt, &files, "a", held),
        _ => assert!(rt; false, "at call {call}"),
    }
    Ok(())
}

#[test]
fn a_file_is_written_in_two_calls(rt: HostRuntime) -> Result<(), Fail> {
    let alloc = rt.alloc();
    expect_write(&rt, alloc, 0, "new!", Err("attest"))?;
    expect_write(&rt, alloc, 1, "new!", Err("ne"))?;
    expect_write(&rt, alloc, 2, "new!", Ok("new!"))?;
    expect_write(&rt, alloc, 0, "", Err("attest"))?;
    expect_write(&rt, alloc, 1, "", Ok(""))?;
    Ok(())
}

// The path of a new folder.
fn new_folder(rt: &HostRuntime) -> Result<String, Fail> {
    let alloc = rt.alloc();
    let temporary = env::temp_dir(rt)?;
    for number in 0..1000 {
        let path = format!(in alloc; "{}/att_base_{number}", temporary.as_str())?;
        if fs::create_dir(rt, path.as_str()).is_ok() {
            return Ok(path);
        }
    }
    Err(Fail::from("no new folder"))
}

#[test]
fn real_files_are_read_and_written(rt: HostRuntime) -> Result<(), Fail> {
    let alloc = rt.alloc();
    let folder = new_folder(&rt)?;
    let path = format!(in alloc; "{folder}/file")?;
    let beyond = format!(in alloc; "{path}/file")?;
    let (folder, name, nowhere) = (folder.as_str(), path.as_str(), beyond.as_str());
    assert!(rt; !folder.is_empty() && folder.len() <= 255);
    assert!(rt; !name.is_empty() && name.len() <= 255);
    assert!(rt; !nowhere.is_empty() && nowhere.len() <= 255);
    let mut files = StdFiles::new(&rt);
    expect_read(&rt, alloc, &mut files, name, 9, Err(ReadFault::Missing));
    write_whole(alloc, &mut files, name, b"a longer text")?;
    write_whole(alloc, &mut files, name, &TEXT)?;
    expect_read(&rt, alloc, &mut files, name, u64::MAX, Ok("attest"));
    expect_read(&rt, alloc, &mut files, name, 6, Ok("attest"));
    expect_read(&rt, alloc, &mut files, name, 5, Err(ReadFault::TooLong));
    files.append(alloc, name, b"!")?;
    expect_read(&rt, alloc, &mut files, name, 7, Ok("attest!"));
    files.clear(alloc, name)?;
    expect_read(&rt, alloc, &mut files, name, 0, Ok(""));
    // A folder is no file, and a file is no folder.
    expect_read(&rt, alloc, &mut files, folder, 9, Err(ReadFault::Failed));
    expect_read(&rt, alloc, &mut files, nowhere, 9, Err(ReadFault::Failed));
    assert_eq!(rt; files.clear(alloc, folder), Err(FileFault::Failed));
    assert_eq!(rt; files.append(alloc, nowhere, b"!"), Err(FileFault::Failed));
    fs::remove_dir_all(&rt, folder)?;
    Ok(())
}

fn zeros(alloc: Global, count: usize) -> Result<Vec<u8>, AllocError> {
    vec![in alloc; 0; count]
}

#[test]
fn real_files_at_their_limits(rt: HostRuntime) -> Result<(), Fail> {
    let alloc = rt.alloc();
    let folder = new_folder(&rt)?;
    let path = format!(in alloc; "{folder}/file")?;
    let name = path.as_str();
    assert!(rt; !name.is_empty() && name.len() <= 255);
    let mut files = StdFiles::new(&rt);
    // A file that wasn't there, of one byte more than a mebibyte.
    let bytes = zeros(alloc, 1_048_577)?;
    files.append(alloc, name, &bytes)?;
    assert_eq!(rt; files.read(alloc, name, u64::MAX)?.len(), bytes.len());
    // A device that has no room.
    assert_eq!(rt;
        files.append(alloc, "/dev/full", b"!"),
        Err(FileFault::Failed)
    );
    fs::remove_dir_all(&rt, folder.as_str())?;
    Ok(())
}

#[test]
fn kinds_of_entries_have_their_numbers(rt: HostRuntime) {
    assert_eq!(rt;
        [MADE_FETCH, MADE_LOAD, MADE_STORE, MADE_START],
        [1, 2, 3, 4]
    );
    assert_eq!(rt;
        [MADE_COPY, MADE_END, MADE_TICK, MADE_RELEASE],
        [5, 6, 7, 8]
    );
}
