//! Modified UTF-8.

ghost use Rattle.std.specs.Prelude.{◌≡◌, ◌+◌, ◌<◌, ◌≤◌, length, drop, OnOk, IfErr, None, Some};
ghost use Rattle.std.specs.Bool.{OnTrue};
ghost use Rattle.desk_base.specs.Limits.{file_size};
ghost use Rattle.desk_base.specs.Utf8.{bad_form, form_size, is_single, is_continuation, AreSingle};

use std::simd::prelude::*;

/// How many bytes are looked at together.
const BLOCK_SIZE: usize = 8;

fn is_single(byte: u8) -> bool
    ensures { result ≡ is_single byte }
{
    1 <= byte && byte <= 0x7F
}

fn is_continuation(byte: u8) -> bool
    ensures { result ≡ is_continuation byte }
{
    0x80 <= byte && byte <= 0xBF
}

/// How many bytes the form at a place takes, 0 where none begins there.
fn size_at(bytes: &[u8], at: usize) -> usize
    requires { at < length bytes.now }
    ensures { result ≡ form_size (drop at bytes.now) }
{
    let first = bytes[at];
    let left = bytes.len() - at;
    if is_single(first) {
        1
    } else if left < 2 || !is_continuation(bytes[at + 1]) {
        0
    } else if 0xC0 <= first && first <= 0xDF {
        2
    } else if left < 3 || !is_continuation(bytes[at + 2]) {
        0
    } else if 0xE0 <= first && first <= 0xEF {
        3
    } else {
        0
    }
}

/// Whether each of the eight bytes from a place on is a form by itself.
#[inline(always)]
fn is_single_block(bytes: &[u8], at: usize) -> bool
    requires { at + BLOCK_SIZE ≤ length bytes.now }
    ensures { OnTrue result (AreSingle bytes.now at (at + BLOCK_SIZE)) }
{
    let block = u8x8::from_slice(&bytes[at..]);
    let others = block.simd_eq(u8x8::splat(0)) | block.simd_ge(u8x8::splat(0x80));
    others.to_bitmask() == 0
}

/// How many bytes in front are seen to be forms by themselves, where eight are looked at together. Most texts of eight
/// bytes or more are passed whole.
fn single_front(bytes: &[u8]) -> usize
    ensures within { result ≤ length bytes.now }
    ensures single { AreSingle bytes.now 0 result }
{
    let mut at = 0;
    while bytes.len() - at >= BLOCK_SIZE {
        if !is_single_block(bytes, at) {
            return at;
        }
        at += BLOCK_SIZE;
    }
    // The last eight bytes overlap those that were looked at before.
    if bytes.len() >= BLOCK_SIZE && is_single_block(bytes, bytes.len() - BLOCK_SIZE) {
        return bytes.len();
    }
    at
}

/// Whether bytes, of which there are at most 67,108,864, are modified UTF-8 (JVMS 4.4.7): forms one behind the other,
/// each a byte from 0x01 to 0x7F, or 110xxxxx 10xxxxxx, or 1110xxxx 10xxxxxx 10xxxxxx. A longer spelling of a shorter form
/// is accepted. The error is the offset of the first byte that begins no form. It takes no memory.
pub fn check_utf8(bytes: &[u8]) -> Result<(), u32>
    requires { length bytes.now ≤ file_size }
    ensures formed { OnOk result (bad_form bytes.now ≡ None) }
    ensures first { IfErr result (λ offset. bad_form bytes.now ≡ Some offset) }
    ensures within { IfErr result (λ offset. offset < length bytes.now) }
{
    let mut at = single_front(bytes);
    while at < bytes.len() {
        let size = size_at(bytes, at);
        if size == 0 {
            return Err(at as u32);
        }
        at += size;
    }
    Ok(())
}
