//! The lines of a trace, appended to its text.

ghost use Rattle.std.specs.Prelude.{◌≡◌, ◌^◌, ◌<◌, ◌≤◌, ◌++◌, ◌∷◌, [], length, map, codes, OnOk, All};
ghost use Rattle.std.specs.List.{flat_map};
ghost use Rattle.std.specs.Fmt.{decimal};
ghost use Rattle.std.specs.Fork.{slice_chunk};
ghost use Rattle.std.specs.Slice.Iter.{chunk_count};
ghost use Rattle.hex.specs.Hex.{encode_lower};
ghost use Rattle.history.specs.declared.events.Width.TheVariants.{Byte, Half, Word};
ghost use Rattle.history.specs.declared.events.Act.TheVariants.{Start, Copy};
ghost use Rattle.history.specs.Layout.{width_bytes};
ghost use Rattle.text_readers.specs.Digits.{word_digits};
ghost use Rattle.trace.specs.Text.{text_of_lines, width_digit, width_digits, access_text, act_text, entry_text, range_pair, version_line, memory_line, attest_line, cap_line, head_lines, image_lines, end_line};
ghost use Rattle.trace.specs.Printable.{ActIsPrintable, IsPrintable};

use chronicle::{Act, Discipline, Entry, Geometry, Range, Ranges, Width, World};
use std::alloc::AllocError;
use text_readers::{byte_digits, put_number, word_digits};

#[tactic(auto, unfolding(hex::specs::Hex::encode_with))]
fn half_digits(value: u16) -> [u8; 4]
    ensures { result ≡ width_digits Half value }
{
    let [high, low] = value.to_be_bytes();
    let [a, b] = byte_digits(high);
    let [c, d] = byte_digits(low);
    [a, b, c, d]
}

// The actor, a digit.
#[tactic(auto, using(std::proofs::lemmas::Fmt::decimal_digit))]
fn actor_digit(actor: u32) -> u8
    requires { actor ≤ 8 }
    ensures { decimal actor ≡ result ∷ [] }
{
    b'0' + actor as u8
}

// `A f ADDR VALUE`, with the line's end. The actor is a digit here and below.
fn fetch_line(actor: u8, addr: u32, value: u32) -> [u8; 22]
    ensures { result ≡ actor ∷ codes " f" ++ access_text addr Word value ++ 10 ∷ [] }
{
    let d = word_digits(addr);
    let v = word_digits(value);
    [
        actor, b' ', b'f', b' ', d[0], d[1], d[2], d[3], d[4], d[5], d[6], d[7], b' ', v[0], v[1],
        v[2], v[3], v[4], v[5], v[6], v[7], b'\n',
    ]
}

// `A K1 ADDR VALUE`, the line of a load or a store, whose letter is K, with its end.
fn byte_line(actor: u8, letter: u8, addr: u32, value: u8) -> [u8; 17]
    ensures { result ≡ actor ∷ 32 ∷ letter ∷ width_digit Byte ++ access_text addr Byte value ++ 10 ∷ [] }
{
    let d = word_digits(addr);
    let v = byte_digits(value);
    [
        actor, b' ', letter, b'1', b' ', d[0], d[1], d[2], d[3], d[4], d[5], d[6], d[7], b' ',
        v[0], v[1], b'\n',
    ]
}

// `A K2 ADDR VALUE`
fn half_line(actor: u8, letter: u8, addr: u32, value: u16) -> [u8; 19]
    ensures { result ≡ actor ∷ 32 ∷ letter ∷ width_digit Half ++ access_text addr Half value ++ 10 ∷ [] }
{
    let d = word_digits(addr);
    let v = half_digits(value);
    [
        actor, b' ', letter, b'2', b' ', d[0], d[1], d[2], d[3], d[4], d[5], d[6], d[7], b' ',
        v[0], v[1], v[2], v[3], b'\n',
    ]
}

// `A K4 ADDR VALUE`
fn word_line(actor: u8, letter: u8, addr: u32, value: u32) -> [u8; 23]
    ensures { result ≡ actor ∷ 32 ∷ letter ∷ width_digit Word ++ access_text addr Word value ++ 10 ∷ [] }
{
    let d = word_digits(addr);
    let v = word_digits(value);
    [
        actor, b' ', letter, b'4', b' ', d[0], d[1], d[2], d[3], d[4], d[5], d[6], d[7], b' ',
        v[0], v[1], v[2], v[3], v[4], v[5], v[6], v[7], b'\n',
    ]
}

// The line of a load or a store, whose letter this is, with its end.
fn put_access(
    out: &mut Vec<u8>,
    actor: u8,
    letter: u8,
    addr: u32,
    width: Width,
    value: u32,
) -> Result<(), AllocError>
    requires { value < 256 ^ width_bytes width }
    ensures { OnOk result (out.new.items ≡ out.old.items ++ actor ∷ 32 ∷ letter ∷ width_digit width ++ access_text addr width value ++ 10 ∷ []) }
{
    match width {
        Width::Byte => out.extend_from_slice(&byte_line(actor, letter, addr, value as u8)),
        Width::Half => out.extend_from_slice(&half_line(actor, letter, addr, value as u16)),
        Width::Word => out.extend_from_slice(&word_line(actor, letter, addr, value)),
    }
}

// `A start CODE COUNTER`, with the line's end.
#[tactic(auto, unfolding(crate::specs::Text::act_text))]
fn put_start(
    out: &mut Vec<u8>,
    actor: u8,
    discipline: Discipline,
    counter: u64,
) -> Result<(), AllocError>
    ensures { OnOk result (out.new.items ≡ out.old.items ++ actor ∷ act_text (Start discipline counter) ++ 10 ∷ []) }
{
    out.push(actor)?;
    out.extend_from_slice(b" start ")?;
    put_number(out, u64::from(discipline.code()))?;
    out.push(b' ')?;
    put_number(out, counter)?;
    out.push(b'\n')?;
    Ok(())
}

// `A copy BLOCK`, with the line's end.
#[tactic(auto, unfolding(crate::specs::Text::act_text))]
fn put_copy(out: &mut Vec<u8>, actor: u8, block: u32) -> Result<(), AllocError>
    ensures { OnOk result (out.new.items ≡ out.old.items ++ actor ∷ act_text (Copy block) ++ 10 ∷ []) }
{
    out.push(actor)?;
    out.extend_from_slice(b" copy ")?;
    put_number(out, u64::from(block))?;
    out.push(b'\n')?;
    Ok(())
}

// An actor and the rest of its line.
fn put_plain(out: &mut Vec<u8>, actor: u8, rest: &[u8]) -> Result<(), AllocError>
    ensures { OnOk result (out.new.items ≡ out.old.items ++ actor ∷ rest.now) }
{
    out.push(actor)?;
    out.extend_from_slice(rest)
}

// The line of an entry, with its end. An access is one piece, since nearly all entries are accesses.
#[tactic(auto, unfolding(crate::specs::Text::entry_text, crate::specs::Text::act_text))]
fn put_entry(out: &mut Vec<u8>, entry: &Entry) -> Result<(), AllocError>
    requires { IsPrintable entry.now }
    ensures { OnOk result (out.new.items ≡ out.old.items ++ (entry_text entry.now ++ 10 ∷ [])) }
{
    let actor = actor_digit(entry.actor);
    match entry.act {
        Act::Fetch { addr, value } => out.extend_from_slice(&fetch_line(actor, addr, value)),
        Act::Load { addr, width, value } => put_access(out, actor, b'l', addr, width, value),
        Act::Store { addr, width, value } => put_access(out, actor, b's', addr, width, value),
        Act::Start {
            discipline,
            counter,
        } => put_start(out, actor, discipline, counter),
        Act::Copy { block } => put_copy(out, actor, block),
        Act::End => put_plain(out, actor, b" end\n"),
        Act::Tick => put_plain(out, actor, b" tick\n"),
        Act::Release => put_plain(out, actor, b" release\n"),
    }
}

/// The lines of entries.
pub fn put_entries(out: &mut Vec<u8>, entries: &[Entry]) -> Result<(), AllocError>
    requires { All IsPrintable entries.now }
    ensures { OnOk result (out.new.items ≡ out.old.items ++ text_of_lines (map entry_text entries.now)) }
{
    for entry in entries {
        put_entry(out, entry)?;
    }
    Ok(())
}

// The line of at most 32 bytes of the image, with its end.
fn put_image_line(out: &mut Vec<u8>, bytes: &[u8]) -> Result<(), AllocError>
    requires { length bytes.now ≤ 32 }
    ensures { OnOk result (out.new.items ≡ out.old.items ++ (encode_lower bytes.now ++ 10 ∷ [])) }
{
    let mut digits = [0u8; 64];
    let digits = &mut digits[..2 * bytes.len()];
    let Ok(()) = hex::encode_to_slice(bytes, digits) else {
        unreachable!()
    };
    out.extend_from_slice(digits)?;
    out.push(b'\n')?;
    Ok(())
}

// The bytes of the image's line with this number, from 0.
fn image_piece(image: &[u8], line: usize) -> &[u8]
    requires { line < chunk_count (length image.now) 32 }
    ensures value { result.now ≡ slice_chunk image.now 32 line }
    ensures few { length result.now ≤ 32 }
{
    let from = line * 32;
    let to = (from + 32).min(image.len());
    &image[from..to]
}

/// The lines of the image, 32 bytes each.
#[tactic(auto, unfolding(crate::specs::Text::image_lines))]
pub fn put_image(out: &mut Vec<u8>, image: &[u8]) -> Result<(), AllocError>
    ensures { OnOk result (out.new.items ≡ out.old.items ++ text_of_lines (image_lines image.now)) }
{
    for line in 0..(image.len() + 31) / 32 {
        put_image_line(out, image_piece(image, line))?;
    }
    Ok(())
}

fn put_version(out: &mut Vec<u8>, ranges: &Ranges) -> Result<(), AllocError>
    ensures { OnOk result (out.new.items ≡ out.old.items ++ (version_line ranges.now ++ 10 ∷ [])) }
{
    if ranges.count() == 1 {
        return out.extend_from_slice(b"TMT1\n");
    }
    out.extend_from_slice(b"TMT2\n")
}

fn put_memory(out: &mut Vec<u8>, geometry: &Geometry) -> Result<(), AllocError>
    ensures { OnOk result (out.new.items ≡ out.old.items ++ (memory_line geometry.now ++ 10 ∷ [])) }
{
    out.extend_from_slice(b"memory ")?;
    out.extend_from_slice(&word_digits(geometry.base()))?;
    out.push(b' ')?;
    put_number(out, u64::from(geometry.size()))?;
    out.push(b' ')?;
    put_number(out, u64::from(geometry.blocks()))?;
    out.push(b'\n')?;
    Ok(())
}

fn put_range(out: &mut Vec<u8>, range: Range) -> Result<(), AllocError>
    ensures { OnOk result (out.new.items ≡ out.old.items ++ range_pair range) }
{
    out.push(b' ')?;
    put_number(out, u64::from(range.first))?;
    out.push(b' ')?;
    put_number(out, u64::from(range.attested))
}

fn put_ranges(out: &mut Vec<u8>, ranges: &Ranges) -> Result<(), AllocError>
    ensures { OnOk result (out.new.items ≡ out.old.items ++ flat_map range_pair ranges.now) }
{
    'listing: for k in 0..ranges.count() {
        put_range(out, ranges.range(k))?;
    }
    Ok(())
}

fn put_attest(out: &mut Vec<u8>, ranges: &Ranges) -> Result<(), AllocError>
    ensures { OnOk result (out.new.items ≡ out.old.items ++ (attest_line ranges.now ++ 10 ∷ [])) }
{
    out.extend_from_slice(b"attest")?;
    put_ranges(out, ranges)?;
    out.push(b'\n')?;
    Ok(())
}

fn put_cap(out: &mut Vec<u8>, cap: u64) -> Result<(), AllocError>
    ensures { OnOk result (out.new.items ≡ out.old.items ++ (cap_line cap ++ 10 ∷ [])) }
{
    out.extend_from_slice(b"cap ")?;
    put_number(out, cap)?;
    out.push(b'\n')?;
    Ok(())
}

/// The first four lines.
#[tactic(auto, unfolding(crate::specs::Text::head_lines))]
pub fn put_head(out: &mut Vec<u8>, world: &World) -> Result<(), AllocError>
    ensures { OnOk result (out.new.items ≡ out.old.items ++ text_of_lines (head_lines world.now)) }
{
    put_version(out, world.ranges())?;
    put_memory(out, &world.geometry())?;
    put_attest(out, world.ranges())?;
    put_cap(out, world.cap())
}

/// `end N`, after N entries.
#[tactic(auto, unfolding(crate::specs::Text::end_line))]
pub fn put_end(out: &mut Vec<u8>, entries: &[Entry]) -> Result<(), AllocError>
    ensures { OnOk result (out.new.items ≡ out.old.items ++ text_of_lines (end_line entries.now ∷ [])) }
{
    out.extend_from_slice(b"end ")?;
    put_number(out, entries.len() as u64)?;
    out.push(b'\n')?;
    Ok(())
}
