//! What no clause says: that calls succeed with ample memory, up to the limits, and that a listing is told whole.

use super::*;
use att_base::{MemFiles, MemSink, NamedFile};
use command_plans::{NoParts, Output, Stop};
use std::alloc::Global;
use std::test::Fail;

// The files after `asm` of this text.
fn assembled(alloc: Global, text: &[u8]) -> Result<MemFiles, Fail> {
    let mut list = Vec::new(alloc);
    list.push(NamedFile::copied(alloc, "a.s", text)?)?;
    let mut files = MemFiles::new(alloc, list, Vec::new(alloc));
    let prepared: Result<Output<NoParts, NoParts>, Stop> = prepare_asm(
        alloc, &mut files, "a.s", "a.elf",
    );
    let Ok(output) = prepared else {
        return Err("no output".into());
    };
    for file in output.files() {
        file.write_to(alloc, &mut files)?;
    }
    Ok(files)
}

// How many bytes `show` prints of the executable, by so many bytes a write, and the front of them.
fn shown(alloc: Global, files: &mut MemFiles, step: usize) -> Result<MemSink, Fail> {
    let prepared: Result<Output<Listed, NoParts>, Stop> = prepare_show(alloc, files, "a.elf");
    let Ok(mut output) = prepared else {
        return Err("no output".into());
    };
    let mut sink = MemSink::new(alloc, 16_000_000, step.max(1), Vec::new(alloc))?;
    output.put_out(&mut sink)?;
    Ok(sink)
}

#[test]
fn a_program_is_assembled_and_listed(rt: HostRuntime) -> Result<(), Fail> {
    let alloc = rt.alloc();
    let text = b".segment 0x80000000\n.entry main\nmain: li a0, 0x12345FFF\necall\n";
    let mut files = assembled(alloc, text)?;
    assert_eq!(rt; files.bytes_of("a.elf").map(|bytes| bytes.len()), Some(96));
    let want =
        "80000000 12346537 lui x10, 0x12346\n80000004 fff50513 addi x10, x10, -1\n80000008 00000073 ecall\n";
    for step in [1usize, 7, 5000] {
        let sink = shown(alloc, &mut files, step)?;
        assert_eq!(rt; sink.held(), want.as_bytes());
    }
    Ok(())
}
