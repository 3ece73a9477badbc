// What no clause says: that the calls succeed with ample memory, and where a limit ends.

use super::*;
use att_base::{MemFiles, MemSink, MemSource, NamedFile};
use std::alloc::{AllocError, Global};
use std::test::Fail;

#[test]
fn inputs_have_four_mebibytes_at_most(rt: HostRuntime) -> Result<(), Fail> {
    let alloc = rt.alloc();
    for (count, is_read) in [(0, true), (4_194_304, true), (4_194_305, false)] {
        let bytes = vec![in alloc; b'#'; count]?;
        let mut list = Vec::new(alloc);
        list.push(NamedFile::new(String::from_str(alloc, "a.txt")?, bytes))?;
        let mut files = MemFiles::new(alloc, list, Vec::new(alloc));
        match read_file(alloc, &mut files, "a.txt", INPUT_LIMIT) {
            Ok(bytes) => assert_eq!(rt; (bytes.len(), is_read), (count, true)),
            Err(Stop::Bad(line)) => {
                assert!(rt; !is_read);
                assert_eq!(rt; line.as_str(), "attest: bad input a.txt long 2\n");
            }
            Err(_) => return Err("a file isn't read".into()),
        }
        let text = vec![in alloc; b'#'; count]?;
        let mut input = MemSource::new(text, 65_536, Vec::new(alloc));
        match read_input(alloc, &mut input, INPUT_LIMIT) {
            Ok(text) => assert_eq!(rt; (text.len(), is_read), (count, true)),
            Err(Stop::Bad(line)) => {
                assert!(rt; !is_read);
                assert_eq!(rt; line.as_str(), "attest: bad input - long 2\n");
            }
            Err(_) => return Err("the input isn't read".into()),
        }
    }
    Ok(())
}

#[test]
fn a_line_has_each_number(rt: HostRuntime) -> Result<(), Fail> {
    let line = bad_line(rt.alloc(), "dev.toml", "place", 2, &[1, 0, 2, 31])?;
    assert_eq!(rt;
        line.as_str(),
        "attest: bad input dev.toml place 2 1 0 2 31\n"
    );
    Ok(())
}

// A file in two parts.
#[derive(Drop)]
struct TwoParts;

impl FileParts for TwoParts {
    ghost use Rattle.std.specs.Prelude.{[], ◌∷◌, codes};

    ghost parts = { λ _. codes "attest" ∷ codes "ed" ∷ [] };

    fn count(&self) -> usize {
        2
    }

    fn part(&self, alloc: Global, k: usize) -> Result<Vec<u8>, AllocError> {
        if k == 0 {
            return b"attest".to_vec(alloc);
        }
        b"ed".to_vec(alloc)
    }
}

// What the file holds once it is written in parts, where this call on files fails.
fn written(alloc: Global, call: u64) -> Result<(bool, String), Fail> {
    let mut files = MemFiles::new(alloc, Vec::new(alloc), [call].to_vec(alloc)?);
    let file = Planned::in_parts(alloc, String::from_str(alloc, "t")?, TwoParts);
    let whole = file.write_to(alloc, &mut files).is_ok();
    let bytes = files.bytes_of("t").unwrap_or(b"none");
    Ok((whole, String::from_str(alloc, std::str::from_utf8(bytes)?)?))
}

#[test]
fn a_file_is_written_part_by_part(rt: HostRuntime) -> Result<(), Fail> {
    for (call, want) in ["none", "att", "atteste", "attested"].iter().enumerate() {
        let (whole, text) = written(rt.alloc(), call as u64)?;
        assert_eq!(rt; (whole, text.as_str()), (call == 3, *want));
    }
    Ok(())
}

#[test]
fn an_output_is_told_whole(rt: HostRuntime) -> Result<(), Fail> {
    let alloc = rt.alloc();
    let mut sink = MemSink::new(alloc, 9, 2, Vec::new(alloc))?;
    let text = b"text".to_vec(alloc)?;
    let mut output: Output<NoParts, NoParts> = Output::ended(
        alloc,
        Vec::new(alloc),
        text,
        Ending::Full(16),
    )?;
    output.put_out(&mut sink)?;
    assert_eq!(rt; sink.held(), b"text".as_slice());
    assert_eq!(rt; output.line(), "attest: full at 16\n");
    output.put_out(&mut sink)?;
    assert_eq!(rt; sink.held(), b"text".as_slice(), "what is put out is gone");
    let mut none: Output<NoParts, NoParts> = Output::told(alloc, NoParts);
    none.put_out(&mut sink)?;
    assert_eq!(rt;
        (sink.held().len(), none.files().len(), none.line()),
        (4, 0, "")
    );
    Ok(())
}
