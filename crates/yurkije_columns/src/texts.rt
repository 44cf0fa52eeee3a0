//! Texts written into a caller's bytes.
ghost use Rattle.std.specs.Prelude.{◌≡◌, ◌≤◌, ◌<◌, ℕ, take, length};
ghost use Rattle.std.specs.Str.{IsCharBoundary};
ghost use Rattle.vortex_arrow.specs.Written.{SameBehind};
ghost use Rattle.yurkije_columns.specs.Messages.{IsMessage};

/// Writes as many whole characters of a text as there is room for, and tells how many bytes they
/// are. What lies behind stays as it was.
pub fn put_text(text: &str, room: &mut [u8]) -> usize
    ensures room { result ≤ length room.old }
    ensures boundary { IsCharBoundary text.now result }
    ensures most { (i : ℕ) → result < i → i ≤ length room.old → ¬ IsCharBoundary text.now i }
    ensures written { take result room.new ≡ take result text.now }
    ensures behind { SameBehind result room.old room.new }
{
    let count = text.floor_char_boundary(room.len());
    room[..count].copy_from_slice(&text.as_bytes()[..count]);
    count
}

/// Writes as many whole characters of a text into a caller's bytes as there is room for, ended by a
/// NUL, and tells how many bytes they take without it. What lies behind stays as it was.
pub fn put_message(text: &str, message: &mut [u8]) -> usize
    ensures { IsMessage text.now message.old message.new result }
{
    let Some(room) = message.len().checked_sub(1) else {
        return 0;
    };
    let count = put_text(text, &mut message[..room]);
    message[count] = 0;
    count
}
