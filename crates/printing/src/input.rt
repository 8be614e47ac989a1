// Standard input, read into memory of a fixed size, and its parts.
ghost use Rattle.std.specs.Prelude.{◌≡◌, ◌+◌, ◌≤◌, ◌↔◌, length, replicate, take, drop, IfSome, IsNone};
ghost use Rattle.call_text.specs.Lines.{line_end};

use std::io;
use std::io::{Cursor, Read};

// Memory of N bytes, each 0.
pub fn zeros<const N: usize>() -> [u8; N]
    ensures len { length result ≡ N }
    ensures value { result ≡ replicate N 0 }
{
    [0; N]
}

// The first elements of a slice, so many or all.
pub fn front<T>(of: &[T], count: usize) -> &[T]
    ensures { result.now ≡ take count of.now }
{
    &of[..count.min(of.len())]
}

// The elements behind those.
pub fn behind<T>(of: &[T], count: usize) -> &[T]
    ensures { result.now ≡ drop count of.now }
{
    &of[count.min(of.len())..]
}

// Reads until the memory is full, the input ends or a read fails; what then stands at its front.
pub fn read_full(rt: HostRuntime, memory: &mut [u8]) -> &[u8]
    ensures { length result.now ≤ length memory.old }
{
    let room = memory.len();
    let mut front = Cursor::new(&mut memory[..]);
    let _ = io::copy(&mut rt.stdin().take(room as u64), &mut front);
    let read = room.min(front.position() as usize);
    &memory[..read]
}

// What stands behind the first line; nothing where that has no end.
pub fn after_line(text: &[u8]) -> Option<&[u8]>
    ensures rest { IfSome result (λ rest. rest.now ≡ drop (line_end text.now + 1) text.now) }
    ensures none { IsNone result ↔ (length text.now ≤ line_end text.now) }
{
    let end = call_text::line_end(text);
    if end < text.len() {
        return Some(behind(text, end + 1));
    }
    None
}
