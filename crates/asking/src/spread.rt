// A stream spread in place.
ghost use Rattle.std.specs.Prelude.{◌≡◌, ◌*◌, ◌≤◌, length};
ghost use Rattle.asking.specs.Spread.{spread_of};

use codes::pair::Kind;

// From the last of n pairs on, each behind a status read: no pair is stored over before it was moved.
pub(crate) fn spread(room: &mut [u8], n: usize)
    requires { 4 * n ≤ length room.old }
    ensures { room.new ≡ spread_of n room.old }
{
    // by index: a pair moves within the one buffer, to twice its place
    for j in (0..n).rev() {
        let kind = room[2 * j];
        let byte = room[2 * j + 1];
        room[4 * j] = Kind::Status.number();
        room[4 * j + 1] = 0;
        room[4 * j + 2] = kind;
        room[4 * j + 3] = byte;
    }
}
