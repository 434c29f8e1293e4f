// Writes to a part of a slice.
ghost use Rattle.std.specs.Prelude.{◌≡◌, ◌⊎◌, ◌<◌, ◌≤◌, ◌+◌, ℕ, length, take, drop, slice_index};
ghost use Rattle.std.specs.Prelude.{slice_index_or, false};
ghost use Rattle.disk.specs.State.{bytes_after_write};
ghost use Rattle.disk.specs.Crash.{crashed_byte};
ghost use Rattle.disk.specs.Tracking.{state_from};

use crate::Image;

/// Fills the buffer with the bytes that begin at a position.
pub fn read(source: &[u8], at: usize, buffer: &mut [u8])
    requires { at + length buffer.old ≤ length source.now }
    ensures { buffer.new ≡ take (length buffer.old) (drop at source.now) }
{
    buffer.copy_from_slice(&source[at..at + buffer.len()]);
}

/// Writes the bytes from a position on.
pub fn put(target: &mut [u8], at: usize, bytes: &[u8])
    requires { at + length bytes.now ≤ length target.old }
    ensures { target.new ≡ bytes_after_write target.old at bytes.now }
{
    target[at..at + bytes.len()].copy_from_slice(bytes);
}

/// Copies the bytes of one part from another slice.
pub fn copy(target: &mut [u8], source: &[u8], from: usize, to: usize)
    requires order { from ≤ to }
    requires target { to ≤ length target.old }
    requires source { to ≤ length source.now }
    ensures inside { (i : ℕ) → from ≤ i → i < to
        → slice_index target.new i ≡ slice_index source.now i }
    ensures outside { (i : ℕ) → (i < from) ⊎ (to ≤ i)
        → slice_index target.new i ≡ slice_index target.old i }
{
    target[from..to].copy_from_slice(&source[from..to]);
}

/// Sets the marks of one part.
pub fn mark(marks: &mut [bool], from: usize, to: usize, value: bool)
    requires order { from ≤ to }
    requires within { to ≤ length marks.old }
    ensures inside { (i : ℕ) → from ≤ i → i < to → slice_index_or marks.new i false ≡ value }
    ensures outside { (i : ℕ) → (i < from) ⊎ (to ≤ i)
        → slice_index_or marks.new i false ≡ slice_index_or marks.old i false }
{
    marks[from..to].fill(value);
}

/// Puts the bytes of a crash's image at the marked positions of one part.
pub fn crash(
    content: &mut [u8],
    synced: &[u8],
    marks: &[bool],
    from: usize,
    to: usize,
    image: &Image,
)
    requires order { from ≤ to }
    requires within { to ≤ length content.old }
    requires synced { length synced.now ≡ length content.old }
    requires marks { length marks.now ≡ length content.old }
    ensures inside { (i : ℕ) → from ≤ i → i < to
        → slice_index content.new i
        ≡ crashed_byte image.now (state_from content.old synced.now marks.now) i }
    ensures outside { (i : ℕ) → (i < from) ⊎ (to ≤ i)
        → slice_index content.new i ≡ slice_index content.old i }
{
    for i in from..to {
        if marks[i] {
            content[i] = match image {
                Image::Old => synced[i],
                Image::New => content[i],
                Image::Fill(byte) => *byte,
                Image::Bytes(bytes) => bytes.get(i).copied().unwrap_or(content[i]),
            };
        }
    }
}
