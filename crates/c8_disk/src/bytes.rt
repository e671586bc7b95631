//! Writes to bytes in memory, whole or torn, in reserved room.
ghost use Rattle.std.specs.Prelude.{◌≡◌, ◌≤◌, ◌<◌, ◌+◌, ◌++◌, length, vec_len, vec_capacity};
ghost use Rattle.c8_disk.specs.Disk.{overwritten, Torn};

use rand_pcg::Pcg32;
use rand_pcg::rand_core::utils::NextWord;

/// Appends bytes.
fn extend_reserved(file: &mut Vec<u8>, bytes: &[u8])
    requires { vec_len file.old + length bytes.now ≤ vec_capacity file.old }
    ensures items { file.new.items ≡ file.old.items ++ bytes.now }
    ensures capacity { vec_capacity file.old ≤ vec_capacity file.new }
{
    let _extended = file.extend_from_slice(bytes);
}

/// Replaces all bytes.
pub(crate) fn replace(file: &mut Vec<u8>, bytes: &[u8])
    requires { length bytes.now ≤ vec_capacity file.old }
    ensures items { file.new.items ≡ bytes.now }
    ensures capacity { vec_capacity file.old ≤ vec_capacity file.new }
{
    file.clear();
    extend_reserved(file, bytes);
}

/// Writes over the bytes from `at` on, and past their end.
pub(crate) fn overwrite(file: &mut Vec<u8>, at: usize, bytes: &[u8])
    requires place { at ≤ vec_len file.old }
    requires room { at + length bytes.now ≤ vec_capacity file.old }
    ensures written { file.new.items ≡ overwritten file.old.items at bytes.now }
    ensures capacity { vec_capacity file.old ≤ vec_capacity file.new }
{
    let within = bytes.len().min(file.len() - at);
    let (over, past) = bytes.split_at(within);
    file[at..at + within].copy_from_slice(over);
    extend_reserved(file, past);
}

/// Writes one byte over another, or at the end.
fn put(file: &mut Vec<u8>, at: usize, byte: u8)
    requires place { at ≤ vec_len file.old }
    requires room { at < vec_capacity file.old }
    ensures torn { Torn at 1 file.old.items file.new.items }
    ensures there { at < vec_len file.new }
    ensures capacity { vec_capacity file.old ≤ vec_capacity file.new }
{
    if at < file.len() {
        file[at] = byte;
    } else {
        extend_reserved(file, &[byte]);
    }
}

/// Tears a write, as a crash may: writes the first of the bytes, as many as `choices` draws, each as given or as any
/// other byte.
pub(crate) fn tear(file: &mut Vec<u8>, at: usize, bytes: &[u8], choices: &mut Pcg32)
    requires { at + length bytes.now ≤ vec_capacity file.old }
    ensures torn { Torn at (length bytes.now) file.old.items file.new.items }
    ensures capacity { vec_capacity file.old ≤ vec_capacity file.new }
{
    if at > file.len() {
        return;
    }
    let reach = choices.next_word() as usize % (2 * bytes.len() + 1);
    for (i, byte) in bytes.iter().enumerate() {
        if i >= reach {
            return;
        }
        let choice = choices.next_word();
        let any = (choice >> 24) as u8;
        let left = if choice % 2 == 0 { *byte } else { any };
        put(file, at + i, left);
    }
}
