use super::*;
use att_base::DeviceFault;
use lock_plan::Range;
use std::alloc::Global;
use std::process::Abort;
use std::test::Fail;
use toml::Table;

fn table(alloc: Global, text: &str) -> Result<Table, Fail> {
    match read_document(alloc, text.as_bytes()) {
        Ok(table) => Ok(table),
        Err(_) => Err("no document".into()),
    }
}

#[test]
fn documents_are_toml(rt: HostRuntime) {
    let alloc = rt.alloc();
    assert!(rt; read_document(alloc, b"").is_ok());
    assert!(rt; read_document(alloc, b"# nothing\r\na = 1\n").is_ok());
    for bytes in [
        b"a".as_slice(),
        b"a = ",
        b"a = 1\na = 2\n",
        b"a = \"\xff\"",
        b"a = 9223372036854775808",
    ] {
        let refused = read_document(alloc, bytes).err();
        assert_eq!(rt; refused, Some(DeviceFault::Rule(1)), "{bytes:?}");
    }
}

// The number at each key, from 5 to 9.
fn expect_number(rt: &impl Abort, table: &Table, key: &str, number: Option<u64>) {
    assert_eq!(rt; number_at(table, key, 5, 9), number, "{key}");
}

#[test]
fn numbers_have_a_kind_and_a_range(rt: HostRuntime) -> Result<(), Fail> {
    let text =
        "four = 4\nfive = 5\nnine = 0x9\nten = 10\nless = -5\ntext = \"7\"\nfloat = 7.0\nflag = true\nlist = [7]\nday = 2026-01-07\n[table]\nseven = 7\n";
    let table = table(rt.alloc(), text)?;
    expect_number(&rt, &table, "five", Some(5));
    expect_number(&rt, &table, "nine", Some(9));
    for key in [
        "four", "ten", "less", "text", "float", "flag", "list", "day", "table", "seven",
    ] {
        expect_number(&rt, &table, key, None);
    }
    Ok(())
}

#[test]
fn names_have_1_to_255_bytes(rt: HostRuntime) -> Result<(), Fail> {
    let text =
        "none = \"\"\none = \"k\"\ntwo = \"\u{e9}\"\nnumber = 1\nlist = [\"k\"]\nmost = \"@\"\nmore = \"@n\"\n";
    let text = text.replace(rt.alloc(), "@", LONGEST)?;
    let table = table(rt.alloc(), text.as_str())?;
    assert_eq!(rt; name_at(&table, "one"), Some("k"));
    assert_eq!(rt; name_at(&table, "two"), Some("\u{e9}"));
    assert_eq!(rt; name_at(&table, "most"), Some(LONGEST));
    for key in ["none", "more", "number", "list", "missing"] {
        assert_eq!(rt; name_at(&table, key), None, "{key}");
    }
    Ok(())
}

fn expect_names(
    rt: &impl Abort,
    alloc: Global,
    table: &Table,
    key: &str,
    count: Option<usize>,
) -> Result<(), Fail> {
    let names = names_at(alloc, table, key, 1, 3)?;
    assert_eq!(rt; names.as_ref().map(|names| names.len()), count, "{key}");
    Ok(())
}

#[test]
fn arrays_have_names_alone(rt: HostRuntime) -> Result<(), Fail> {
    let text =
        "none = []\none = [\"k\"]\nthree = [\"a\", \"b\", \"c\"]\nfour = [\"a\", \"b\", \"c\", \"d\"]\nmixed = [\"a\", 1]\nempty = [\"a\", \"\"]\ntext = \"a\"\n";
    let table = table(rt.alloc(), text)?;
    expect_names(&rt, rt.alloc(), &table, "one", Some(1))?;
    expect_names(&rt, rt.alloc(), &table, "three", Some(3))?;
    for key in ["none", "four", "mixed", "empty", "text", "missing"] {
        expect_names(&rt, rt.alloc(), &table, key, None)?;
    }
    let Some(value) = table.get("three") else {
        return Err("no value".into());
    };
    let Some(names) = names_in(rt.alloc(), value, 3, 3)? else {
        return Err("no names".into());
    };
    let Some(last) = names.get(2) else {
        return Err("no third name".into());
    };
    assert_eq!(rt; last.as_str(), "c");
    Ok(())
}

#[test]
fn both_kinds_of_file_begin_alike(rt: HostRuntime) -> Result<(), Fail> {
    let text =
        "base = 0x80000000\nblock = 256\nblocks = 64\nfirst = 60\nattested = 4\nkey = \"key.bin\"\nlast = 9223372036854775807\n";
    let table = table(rt.alloc(), text)?;
    let common = match read_common(rt.alloc(), &table) {
        Ok(common) => common,
        Err(_) => return Err("refused".into()),
    };
    let region = common.region;
    assert_eq!(rt; read_region(&table), Ok(region));
    assert_eq!(rt; region.geometry.base(), 0x8000_0000);
    assert_eq!(rt; region.geometry.size(), 256);
    assert_eq!(rt; region.geometry.blocks(), 64);
    assert_eq!(rt; region.ranges.count(), 1);
    assert_eq!(rt;
        region.ranges.range(0),
        Range {
            first: 60,
            attested: 4
        }
    );
    assert_eq!(rt; common.key.as_str(), "key.bin");
    assert_eq!(rt; common.last, 9_223_372_036_854_775_807);
    Ok(())
}

#[test]
fn attested_blocks_are_one_range_or_several(rt: HostRuntime) -> Result<(), Fail> {
    let head = "base = 0\nblock = 16\nblocks = 16\n";
    for (rest, rule) in [
        ("ranges = [[0, 8], [12, 4]]\n", 0),
        (
            "ranges = [[0, 1], [2, 1], [4, 1], [6, 1], [8, 1], [10, 1], [12, 1], [14, 2]]\n",
            0,
        ),
        (
            "ranges = [[0, 1], [2, 1], [4, 1], [6, 1], [8, 1], [10, 1], [12, 1], [14, 1], [16, 1]]\n",
            5,
        ),
        ("ranges = []\n", 5),
        ("ranges = [[1, 2], [3, 1]]\n", 5),
        ("ranges = [[5, 1], [1, 2]]\n", 5),
        ("ranges = [[0, 0]]\n", 5),
        ("ranges = [[0, 8], [12, 5]]\n", 5),
        ("ranges = [[0, 8, 1]]\n", 5),
        ("ranges = [[0], [8, 1]]\n", 5),
        ("ranges = [[-1, 2]]\n", 5),
        ("ranges = [[0, \"8\"]]\n", 5),
        ("ranges = [0, 8]\n", 5),
        ("ranges = 8\n", 5),
        ("first = 16\nattested = 1\n", 5),
        ("first = 3\nattested = 14\n", 6),
        ("first = 3\nattested = 0\n", 6),
        ("first = 3\n", 6),
        ("ranges = [[0, 8]]\nfirst = 0\n", 6),
        ("ranges = [[0, 8]]\nattested = 8\n", 6),
    ] {
        let text = format!(in rt.alloc(); "{head}{rest}")?;
        let table = table(rt.alloc(), text.as_str())?;
        let found = match read_region(&table) {
            Ok(_) => 0,
            Err(DeviceFault::Rule(number)) => number,
            Err(DeviceFault::Memory) => 99,
        };
        assert_eq!(rt; found, rule, "{rest}");
    }
    Ok(())
}

// A name of 255 bytes.
const LONGEST: &str =
    "nnnnnnnnnnnnnnnnnnnnnnnnnnnnnnnnnnnnnnnnnnnnnnnnnnnnnnnnnnnnnnnnnnnnnnnnnnnnnnnnnnnnnnnnnnnnnnnnnnnnnnnnnnnnnnnnnnnnnnnnnnnnnnnnnnnnnnnnnnnnnnnnnnnnnnnnnnnnnnnnnnnnnnnnnnnnnnnnnnnnnnnnnnnnnnnnnnnnnnnnnnnnnnnnnnnnnnnnnnnnnnnnnnnnnnnnnnnnnnnnnnnnnnnnnnnnnnn";
