//! The lines that a script prints, appended to its output.

ghost use Rattle.std.specs.Prelude.{◌≡◌, ◌≤◌, ◌++◌, length, OnOk};
ghost use Rattle.std.specs.Fmt.{decimal};
ghost use Rattle.hex.specs.Hex.{encode_lower};
ghost use Rattle.script.specs.Printed.{line};

use std::alloc::AllocError;
use text_readers::put_number;

fn put_hex(out: &mut Vec<u8>, bytes: &[u8]) -> Result<(), AllocError>
    requires { length bytes.now ≤ 32 }
    ensures { OnOk result (out.new.items ≡ out.old.items ++ encode_lower bytes.now) }
{
    let mut digits = [0u8; 64];
    let digits = &mut digits[..2 * bytes.len()];
    let Ok(()) = hex::encode_to_slice(bytes, digits) else {
        unreachable!()
    };
    out.extend_from_slice(digits)
}

/// `P TEXT`: a step with nothing more to tell.
pub fn say_step(out: &mut Vec<u8>, place: u64, text: &[u8]) -> Result<(), AllocError>
    ensures { OnOk result (out.new.items ≡ out.old.items ++ line (decimal place ++ text.now)) }
{
    put_number(out, place)?;
    out.extend_from_slice(text)?;
    out.push(b'\n')?;
    Ok(())
}

/// `P TEXT N`: a step with a number.
pub fn say_number(out: &mut Vec<u8>, place: u64, text: &[u8], number: u64) -> Result<(), AllocError>
    ensures { OnOk result (out.new.items ≡ out.old.items ++ line (decimal place ++ (text.now ++ decimal number))) }
{
    put_number(out, place)?;
    out.extend_from_slice(text)?;
    put_number(out, number)?;
    out.push(b'\n')?;
    Ok(())
}

/// `P TEXT HEX`: a step with bytes.
pub fn say_bytes(out: &mut Vec<u8>, place: u64, text: &[u8], bytes: &[u8]) -> Result<(), AllocError>
    requires { length bytes.now ≤ 32 }
    ensures { OnOk result (out.new.items ≡ out.old.items ++ line (decimal place ++ (text.now ++ encode_lower bytes.now))) }
{
    put_number(out, place)?;
    out.extend_from_slice(text)?;
    put_hex(out, bytes)?;
    out.push(b'\n')?;
    Ok(())
}

/// `TEXT N`: the number of entries, or the cap.
pub fn say_total(out: &mut Vec<u8>, text: &[u8], number: u64) -> Result<(), AllocError>
    ensures { OnOk result (out.new.items ≡ out.old.items ++ line (text.now ++ decimal number)) }
{
    out.extend_from_slice(text)?;
    put_number(out, number)?;
    out.push(b'\n')?;
    Ok(())
}
