use super::*;
use block_memory::Geometry;
use lock_plan::{Range, Ranges};
use std::alloc::{AllocError, Global};
use std::process::Abort;
use std::test::Fail;

// Four blocks of 16 zero bytes, all attested.
const HEAD: &[u8] = b"memory 80000000 16 4 1000\nattest 0 4\nkey 6b6579\n";

fn joined(alloc: Global, head: &[u8], tail: &[u8]) -> Result<Vec<u8>, AllocError> {
    let mut text = Vec::new(alloc);
    text.extend_from_slice(head)?;
    text.extend_from_slice(tail)?;
    Ok(text)
}

// Whether the script of this text fills its history; what it prints is as wanted.
fn expect_printed(
    rt: &(impl Abort + Alloc<A = Global>),
    head: &[u8],
    tail: &[u8],
    want: &[u8],
) -> Result<bool, Fail> {
    let text = joined(rt.alloc(), head, tail)?;
    let Ok(script) = read_script(rt.alloc(), &text) else {
        return Err("the text is refused".into());
    };
    let printed = run(rt.alloc(), script)?;
    assert!(rt; printed.text.as_slice() == want);
    Ok(printed.is_full)
}

// The tags were computed by another program, in another language.
#[test]
fn passes_print_the_tags_of_their_instants(rt: HostRuntime) -> Result<(), Fail> {
    let dec =
        b"fill 80000000 0a0B0c\nfill 80000000 000000\n# more\n\nstart dec 8 000102030405060708090A0b0c0d0e0f\ncopy\nstore 4 80000000 11111111\nstore 4 80000030 22222222\ncopy\ncopy\ncopy\nstore 4 80000030 22222222\nend\nload 4 80000000\nload 2 80000032\nload 1 80000000\n".as_slice();
    let dec_lines =
        b"1 start\n2 copy 0\n3 store\nagain 3\n4 copy 1\n5 copy 2\n6 copy 3\n7 store\n8 end e6fcaecba5c20b60e12321ec4d85b05191e404ed1ba0264e97535c73065645a2\n9 load 11111111\n10 load 2222\n11 load 11\nentries 11\n".as_slice();
    let all_ext =
        b"start all-ext 11 000102030405060708090a0b0c0d0e0f\ncopy\ncopy\ncopy\ncopy\nend\nstore 1 80000000 05\ntick\ntick\nrelease\nstore 1 80000000 05".as_slice();
    let all_ext_lines =
        b"1 start\n2 copy 0\n3 copy 1\n4 copy 2\n5 copy 3\n6 end 5aa595a12f2dec3aa01bfb77d71980ddb46b636d37a057a48768f8d6090e14ef\nagain 6\n7 tick\n8 tick\n9 release 4875fcbde67b4b670f04f3daa0dcf79806c090eb6347248ff53992b9e8547196\n10 store\nentries 10\n".as_slice();
    for (steps, want) in [
        (dec, dec_lines),
        (all_ext, all_ext_lines),
        (b"".as_slice(), b"entries 0\n".as_slice()),
    ] {
        assert!(rt; !expect_printed(&rt, HEAD, steps, want)?);
    }
    let two_ranges = b"memory 80000000 16 8 1000\nattest 1 2 5 1\nkey 6b6579\n".as_slice();
    let dec =
        b"start dec 1 000102030405060708090a0b0c0d0e0f\nstore 1 80000030 01\ncopy\nstore 1 80000010 01\nstore 1 80000050 01\ncopy\ncopy\nend\n".as_slice();
    let lines =
        b"1 start\n2 store\n3 copy 1\n4 store\nagain 4\n5 copy 2\n6 copy 5\n7 end 0058f75835b617b487584b3d3e0fd202d9129c0a784e30ea5a92ee2c814cb001\nentries 7\n".as_slice();
    assert!(rt; !expect_printed(&rt, two_ranges, dec, lines)?);
    scripts_attest();
    releases_tell();
    Ok(())
}

// The history fills at each kind of step, and before it is seen whether a store has to wait. What is printed by then
// is a front of what the whole script prints.
#[test]
fn each_step_may_find_the_history_full(rt: HostRuntime) -> Result<(), Fail> {
    let steps =
        b"attest 0 1\nkey 00\nstart all-ext 1 000102030405060708090a0b0c0d0e0f\ncopy\nend\ntick\nrelease\nload 1 80000000\nstore 1 80000000 01\n".as_slice();
    let whole =
        b"1 start\n2 copy 0\n3 end 9eb167548215010e77dad29089e8f3163cfe9ccb6cc3ee838c1790c132fc6f6e\n4 tick\n5 release a990182287204480e3f61fae3a655de73f30efd800cc350adb526af9e8454c52\n6 load 00\n7 store\n".as_slice();
    for (cap, bytes) in [(1, 8), (2, 17), (3, 88), (4, 95), (5, 170), (6, 180)] {
        let head = format!(in rt.alloc(); "memory 80000000 16 1 {cap}\n")?;
        let end = format!(in rt.alloc(); "full {cap}\n")?;
        let want = joined(rt.alloc(), &whole[..bytes], end.as_bytes())?;
        assert!(rt; expect_printed(&rt, head.as_bytes(), steps, &want)?);
    }
    let waits = b"start all 1 000102030405060708090a0b0c0d0e0f\nstore 1 80000000 01\n".as_slice();
    let head = b"memory 80000000 16 1 1\nattest 0 1\nkey 00\n".as_slice();
    assert!(rt; expect_printed(&rt, head, waits, b"1 start\nfull 1\n")?);
    assert!(rt; !expect_printed(&rt, head, b"tick\n", b"1 tick\nentries 1\n")?);
    Ok(())
}

// The first line that is refused; a header that ends too early is refused at the line after the last one.
#[test]
fn texts_are_refused_at_their_line(rt: HostRuntime) -> Result<(), Fail> {
    let rows: [(&[u8], &[u8], u64); 27] = [
        (b"", b"", 1),
        (b"", b"\n# more\n", 3),
        (b"", b"memory 80000000 16 4 1000", 2),
        (b"", b"memory 80000000 16 4 1000\nattest 0 4\n", 3),
        (b"", b"\n# more\nmemory 80000000 16 4 0\n", 3),
        (b"", b"memory 80000000 16 4 100001\n", 1),
        (b"", b"memory 80000000 4294967312 4 1000\n", 1),
        (b"", b"memory  80000000 16 4 1000\n", 1),
        (b"", b"memory 80000000 16 4 1000\nattest 0 1 1 1\n", 2),
        (b"", b"memory 80000000 16 4 1000\nattest 0 1 2 3\n", 2),
        (b"", b"memory 80000000 16 4 1000\nattest 0 1 2\n", 2),
        (b"", b"memory 80000000 16 4 1000\nattest 4294967296 1\n", 2),
        (
            b"",
            b"memory 80000000 16 32 100\nattest 0 1 2 1 4 1 6 1 8 1 10 1 12 1 14 1 16 1\n",
            2,
        ),
        (b"", b"memory 80000000 16 4 1000\nattest 0 4\nkey \n", 3),
        (
            b"",
            b"memory 80000000 16 4 1000\nattest 0 4\n#\xff\nkey 00\n",
            3,
        ),
        (HEAD, b"fill 8000003f 0001\n", 4),
        (HEAD, b"tick\nfill 80000000 00\n", 5),
        (HEAD, b"copy\n", 4),
        (HEAD, b"load 4 80000002\n", 4),
        (HEAD, b"load 04 80000000\n", 4),
        (HEAD, b"store 1 80000000 0001\n", 4),
        (HEAD, b"start any 1 000102030405060708090a0b0c0d0e0f\n", 4),
        (
            HEAD,
            b"start all 18446744073709551616 000102030405060708090a0b0c0d0e0f\n",
            4,
        ),
        (
            HEAD,
            b"start all 1 000102030405060708090a0b0c0d0e0f\ncopy\nend\n",
            6,
        ),
        (HEAD, b"tick \n", 4),
        (HEAD, b"tick\r\n", 4),
        (HEAD, b"tick\n\n# more \xc3\xa9\n", 6),
    ];
    for (head, tail, line) in rows {
        let text = joined(rt.alloc(), head, tail)?;
        assert_eq!(rt;
            read_script(rt.alloc(), &text).err(),
            Some(ScriptError::Line(line))
        );
    }
    Ok(())
}

// A line of 2,000 bytes, and a script that is built by calls.
#[test]
fn long_lines_are_read_and_scripts_are_built(rt: HostRuntime) -> Result<(), Fail> {
    let alloc = rt.alloc();
    let digits = vec![in alloc; b'6'; 1996]?;
    let text = joined(
        alloc,
        b"memory 80000000 16 4 1000\nattest 0 4\nkey ",
        &digits,
    )?;
    let Ok(script) = read_script(alloc, &text) else {
        return Err("a long line is refused".into());
    };
    assert_eq!(rt; script.into_parts().1.len(), 998);

    let geometry = Geometry::new(0x8000_0000, 16, 4).ok_or("no geometry")?;
    assert!(rt; geometry.blocks() >= 2);
    let mut key = Vec::new(alloc);
    key.extend_from_slice(b"key")?;
    let range = Range {
        first: 1,
        attested: 1,
    };
    let ranges = Ranges::new(&[range]).ok_or("no ranges")?;
    assert!(rt; ranges.end() <= 2);
    let mut script = Script::new(alloc, geometry, 100, ranges, key)?;
    assert_eq!(rt; (script.cap(), script.step_count()), (100, 0));
    assert!(rt; script.has_bytes(0x8000_0000, 64) && !script.has_bytes(0x8000_0001, 64));
    assert!(rt; script.has_bytes(0x8000_003e, 2) && script.step_count() == 0);
    script.fill(0x8000_003e, b"\x01\x02");
    if script.push_step(Step::Tick).is_err() {
        return Err("no tick".into());
    }
    script.is_script();
    let (world, key, steps) = script.into_parts();
    assert_eq!(rt; (world.geometry().blocks(), world.cap()), (4, 100));
    assert!(rt; key.as_slice() == b"key".as_slice());
    assert!(rt; matches!(steps.first(), Some(Step::Tick)));
    Ok(())
}
