//! Names in camel case.
ghost use Rattle.std.specs.Prelude.{◌≡◌, ◌++◌, ◌+◌, ◌≤◌, ◌==◌, ◌&&◌, not, length, if◌then◌else◌};
ghost use Rattle.model_h1.specs.AnswerText.{camel_case, raised};

use bytes::BytesMut;

/// Puts a name as `Content-Type` is written: its first letter and each one after a hyphen in upper case. There is room
/// for it.
pub(crate) fn put_camel_case(out: &mut BytesMut, name: &[u8])
    requires { length name.now ≤ out.old.spare }
    ensures items { out.new.items ≡ out.old.items ++ camel_case name.now }
    ensures spare { out.new.spare + length name.now ≡ out.old.spare }
{
    let mut raises = true;
    for byte in name {
        out.extend_reserved(&[cased(raises, *byte)]);
        raises = raises_next(raises, *byte);
    }
}

fn cased(raises: bool, byte: u8) -> u8
    ensures { result ≡ (if raises then raised byte else byte) }
{
    if raises { raised(byte) } else { byte }
}

// After a hyphen a letter is raised; the byte there isn't looked at again.
fn raises_next(raises: bool, byte: u8) -> bool
    ensures { result ≡ (not raises && (byte == 45)) }
{
    !raises && byte == b'-'
}

// The letter in upper case.
fn raised(byte: u8) -> u8
    ensures { result ≡ raised byte }
{
    if byte.is_ascii_lowercase() {
        byte - 32
    } else {
        byte
    }
}
