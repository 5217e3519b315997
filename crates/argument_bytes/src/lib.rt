//! The arguments of a program as bytes: each one is followed by a NUL byte.
//!
//! Contracts see the bytes cut at each NUL byte (`specs/Arguments.antt`). The crate has one function, `arguments_of`.
#![tactic(auto)]

ghost use Rattle.std.specs.Prelude.{◌≡◌, map, string_bytes, Ok, None, IfOk, IfSome};
ghost use Rattle.argument_bytes.specs.Arguments.{AreArguments, IsRefused};

use std::alloc::{AllocError, Global};
use std::mem;

/// The arguments in these bytes: each one is followed by a NUL byte. None if the last one isn't, or if one isn't UTF-8.
pub fn arguments_of(alloc: Global, bytes: &[u8]) -> Result<Option<Vec<String>>, AllocError>
    ensures ok { IfOk result (λ found. IfSome found (λ words. AreArguments bytes.now (map string_bytes words.items))) }
    ensures refused { result ≡ Ok None → IsRefused bytes.now }
{
    let mut words = Vec::new(alloc);
    let mut begun = Vec::new(alloc);
    for byte in bytes {
        if *byte != 0 {
            begun.push(*byte)?;
            continue;
        }
        match String::from_utf8(mem::replace(&mut begun, Vec::new(alloc))) {
            Ok(word) => words.push(word)?,
            Err(_) => return Ok(None),
        }
    }
    if begun.is_empty() {
        Ok(Some(words))
    } else {
        Ok(None)
    }
}
