// The fields that records are made of, appended to the bytes so far.
ghost use Rattle.std.specs.Prelude.{◌≡◌, ◌++◌, ◌≤◌, ◌<◌, ◌^◌, OnOk, length};
ghost use Rattle.std.specs.Int.{to_be_bytes, w64};
ghost use Rattle.lw_types.specs.Hex.{IsBytes};
ghost use Rattle.lw_types.specs.Values.{IsKey};
ghost use Rattle.byte_fields.specs.Spelling.{counted_bytes, flag};
ghost use Rattle.record_codec.specs.Writing.{KeepsFront};

use lw_types::{Eui, Key};
use std::alloc::AllocError;

/// Appends the bytes of an EUI, the highest first.
pub(crate) fn put_eui(out: &mut Vec<u8>, eui: Eui) -> Result<(), AllocError>
    ensures written { OnOk result (out.new.items ≡ out.old.items ++ to_be_bytes w64 eui.0) }
    ensures in_range { eui.0 < 2 ^ 64 }
    ensures keeps { KeepsFront out.old.items out.new.items }
{
    out.extend_from_slice(&eui.0.to_be_bytes())
}

/// Appends the bytes of a key.
pub(crate) fn put_key(out: &mut Vec<u8>, key: Key) -> Result<(), AllocError>
    ensures written { OnOk result (out.new.items ≡ out.old.items ++ key.0) }
    ensures in_range { IsKey key }
    ensures keeps { KeepsFront out.old.items out.new.items }
{
    out.extend_from_slice(&key.0)?;
    Ok(())
}

/// Appends a byte with the length, and the bytes.
pub(crate) fn put_counted(out: &mut Vec<u8>, bytes: &[u8]) -> Result<(), AllocError>
    requires { length bytes.now ≤ 255 }
    ensures written { OnOk result (out.new.items ≡ out.old.items ++ counted_bytes bytes.now) }
    ensures in_range { IsBytes bytes.now }
    ensures keeps { KeepsFront out.old.items out.new.items }
{
    out.push(bytes.len() as u8)?;
    out.extend_from_slice(bytes)?;
    Ok(())
}

/// Appends 00 or 01.
pub(crate) fn put_flag(out: &mut Vec<u8>, is_there: bool) -> Result<(), AllocError>
    ensures written { OnOk result (out.new.items ≡ out.old.items ++ flag is_there) }
    ensures keeps { KeepsFront out.old.items out.new.items }
{
    out.push(u8::from(is_there))?;
    Ok(())
}
