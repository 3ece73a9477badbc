//! What no clause says: that calls succeed with ample memory, and that what the definitions say is what these rows say.
//! MACs and tags are from another implementation.

use super::*;
use att_base::{MemFiles, MemSink, NamedFile};
use challenge::Discipline;
use command_plans::{Ending, NoParts, Output, Stop};
use std::alloc::Global;
use std::process::Abort;
use std::test::Fail;

const Z: &str = "000102030405060708090a0b0c0d0e0f";

const NONCE: [u8; 16] = [0, 1, 2, 3, 4, 5, 6, 7, 8, 9, 10, 11, 12, 13, 14, 15];

#[test]
fn words_ask_for_challenges(rt: HostRuntime) -> Result<(), Fail> {
    let upper = "000102030405060708090A0b0C0d0E0F";
    let found = challenge_of("inc-ext", "4096", "50", "18446744073709551615", upper);
    let found = found.ok_or("no challenge")?;
    assert_eq!(rt; found.discipline, Discipline::IncExt);
    assert_eq!(rt;
        (found.lead, found.hold, found.counter),
        (4096, 50, u64::MAX)
    );
    assert_eq!(rt; found.nonce, NONCE);
    for words in "dec 0 1 7/dec 4097 0 7/dec 4294967296 0 7/dec 07 0 7/ 0 0 7".split('/') {
        let mut parts = words.split(' ');
        let form = parts.next().unwrap_or("");
        let lead = parts.next().unwrap_or("");
        let hold = parts.next().unwrap_or("");
        assert!(rt; challenge_of(form, lead, hold, "7", Z).is_none(), "{words}");
    }
    Ok(())
}

// What goes to standard output, and `good` or `bad`; or why nothing does.
fn answer(
    alloc: Global,
    prepared: &mut Result<Output<NoParts, NoParts>, Stop>,
) -> Result<String, Fail> {
    let text = match prepared {
        Ok(output) => {
            let mut sink = MemSink::new(alloc, 100, 100, Vec::new(alloc))?;
            output.put_out(&mut sink)?;
            let out = std::str::from_utf8(sink.held())?;
            let end = match output.ending() {
                Ending::Accepted => "good",
                Ending::Refused => "bad",
                Ending::Full(_) => "full",
            };
            return Ok(format!(in alloc; "{out}{end}")?);
        }
        Err(Stop::Absent) => "absent",
        Err(Stop::Fault) => "fault",
        Err(Stop::Memory) => "memory",
        Err(Stop::Bad(line)) => return Ok(String::from_str(alloc, line.as_str())?),
    };
    Ok(String::from_str(alloc, text)?)
}

// The first 40 bytes of the challenge in Dec-Lock with lead 100 and counter 7.
const DEC: &[u8] =
    b"\x54\x4d\x43\x31\x03\x00\x00\x00\x00\x00\x00\x64\x00\x00\x00\x00\x00\x00\x00\x00\x00\x00\x00\x07\x00\x01\x02\x03\x04\x05\x06\x07\x08\x09\x0a\x0b\x0c\x0d\x0e\x0f";

#[test]
fn a_challenge_is_written(rt: HostRuntime) -> Result<(), Fail> {
    let alloc = rt.alloc();
    let asked = challenge_of("dec", "100", "0", "7", Z).ok_or("no challenge")?;
    let mut list = Vec::new(alloc);
    list.push(NamedFile::copied(alloc, "key.bin", b"key")?)?;
    let mut files = MemFiles::new(alloc, list, Vec::new(alloc));
    let mut prepared = prepare_challenge(alloc, &mut files, "key.bin", &asked, "c.bin");
    let want = "challenge 7 f9d56578882220d2e36fd63bcb3b79acc4819532a417eb3356f62cdea4f1bc02\ngood";
    assert_eq!(rt; answer(alloc, &mut prepared)?.as_str(), want);
    if let Ok(output) = &prepared {
        for file in output.files() {
            file.write_to(alloc, &mut files)?;
        }
    }
    let bytes = files.bytes_of("c.bin").ok_or("no file")?;
    assert_eq!(rt; (bytes.len(), bytes.get(..40)), (72, Some(DEC)));
    Ok(())
}

const VERIFIER: &str =
    "base = 0x80000000\nblock = 16\nblocks = 4\nfirst = 0\nattested = 4\nkey = \"key.bin\"\nlast = 10\nchallenge = \"c.bin\"\nimages = [\"other.img\", \"good.img\"]\n";

// The challenge in All-Lock-Ext with lead 3, hold 4 and counter 11.
const SENT: &[u8] =
    b"\x54\x4d\x43\x31\x02\x00\x00\x00\x00\x00\x00\x03\x00\x00\x00\x04\x00\x00\x00\x00\x00\x00\x00\x0b\x00\x01\x02\x03\x04\x05\x06\x07\x08\x09\x0a\x0b\x0c\x0d\x0e\x0f\x62\x9f\x10\xad\x64\xb6\x3b\x0d\xcc\xc6\xf8\x46\xcd\xdc\x08\x30\xda\x8b\xf0\x72\x62\xb0\xbd\x9e\xa6\x2e\xbe\xd5\xf5\x9d\x47\x53";

// Its report on 64 zero bytes, with Start at 1 and End at 6, and the note on Release at 9.
const REPORT: &[u8] =
    b"\x54\x4d\x52\x31\x02\x00\x00\x00\x00\x00\x00\x00\x00\x00\x00\x0b\x00\x01\x02\x03\x04\x05\x06\x07\x08\x09\x0a\x0b\x0c\x0d\x0e\x0f\x80\x00\x00\x00\x00\x00\x00\x10\x00\x00\x00\x00\x00\x00\x00\x04\x00\x00\x00\x00\x00\x00\x00\x01\x00\x00\x00\x00\x00\x00\x00\x06\x5a\xa5\x95\xa1\x2f\x2d\xec\x3a\xa0\x1b\xfb\x77\xd7\x19\x80\xdd\xb4\x6b\x63\x6d\x37\xa0\x57\xa4\x87\x68\xf8\xd6\x09\x0e\x14\xef";

const NOTE: &[u8] =
    b"\x54\x4d\x4e\x31\x00\x00\x00\x00\x00\x00\x00\x00\x00\x00\x00\x0b\x00\x00\x00\x00\x00\x00\x00\x01\x00\x00\x00\x00\x00\x00\x00\x06\x00\x00\x00\x00\x00\x00\x00\x09\x48\x75\xfc\xbd\xe6\x7b\x4b\x67\x0f\x04\xf3\xda\xa0\xdc\xf7\x98\x06\xc0\x90\xeb\x63\x47\x24\x8f\xf5\x39\x92\xb9\xe8\x54\x71\x96";

// What `verify` answers where the byte at this place of this file has these bits turned.
fn expect(
    rt: &impl Abort,
    alloc: Global,
    row: (&str, usize, u8),
    with_note: bool,
    want: &str,
) -> Result<(), Fail> {
    let (name, place, bits) = row;
    let mut list = Vec::new(alloc);
    for (file, bytes) in [
        ("v.toml", VERIFIER.as_bytes()),
        ("key.bin", b"key"),
        ("c.bin", SENT),
        ("other.img", &[1; 64]),
        ("good.img", &[0; 64]),
        ("r.bin", REPORT),
        ("n.bin", NOTE),
    ] {
        let mut copy = bytes.to_vec(alloc)?;
        if let Some(byte) = copy.get_mut(place) {
            *byte ^= if file == name { bits } else { 0 };
        }
        list.push(NamedFile::copied(alloc, file, &copy)?)?;
    }
    let mut files = MemFiles::new(alloc, list, Vec::new(alloc));
    let note = if with_note { Some("n.bin") } else { None };
    let mut prepared = prepare_verify(alloc, &mut files, "v.toml", "r.bin", note);
    assert_eq!(rt; answer(alloc, &mut prepared)?.as_str(), want, "{name}");
    Ok(())
}

#[test]
fn reports_and_notes_are_judged(rt: HostRuntime) -> Result<(), Fail> {
    let alloc = rt.alloc();
    for (row, with_note, want) in [
        (("", 0, 0), false, "verdict accepted good.img\ngood"),
        (
            ("", 0, 0),
            true,
            "verdict accepted good.img\nnote accepted 9\ngood",
        ),
        (
            ("n.bin", 39, 1),
            true,
            "verdict accepted good.img\nnote rejected 3\nbad",
        ),
        (("r.bin", 95, 1), true, "verdict rejected 5\nbad"),
        (
            ("c.bin", 71, 1),
            false,
            "attest: bad input c.bin challenge 2\n",
        ),
    ] {
        expect(&rt, alloc, row, with_note, want)?;
    }
    Ok(())
}
