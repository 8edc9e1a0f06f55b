//! The room of a caller, into which a text goes.
ghost use Rattle.std.specs.Prelude.{◌≡◌, length};
ghost use Rattle.foreign_calls.specs.Answers.{filled, room_number};

use crate::numbers::{DONE, ROOM};

/// Puts a text into a room, where that is long enough, and tells how long the text is.
pub fn put(text: &[u8], room: &mut [u8], needed: &mut usize) -> u32
    ensures number { result ≡ room_number text.now room.old }
    ensures room { room.new ≡ filled text.now room.old }
    ensures needed { needed.new ≡ length text.now }
{
    *needed = text.len();
    if text.len() <= room.len() {
        room[..text.len()].copy_from_slice(text);
        DONE
    } else {
        ROOM
    }
}
