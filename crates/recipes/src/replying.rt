// The replies to the lines of a recipe, the k-th at the start of the k-th 32 bytes of the room.
ghost use Rattle.std.specs.Prelude.{◌≡◌, map, ◌*◌, ◌≤◌, length};
ghost use Rattle.recipes.specs.Inner.{told, replies_in, lengths_of};

use card::Answer;
use roads::put_text;

// Puts the replies to the lines into the room, and says how long each is.
pub fn put_replies(answers: &[Answer], room: &mut [u8]) -> [usize; 64]
    requires { (length answers.now ≤ 64) × (32 * length answers.now ≤ length room.old) }
    ensures room_after { room.new ≡ replies_in (map told answers.now) room.old }
    ensures value { result ≡ lengths_of (map told answers.now) }
{
    let mut lengths = [0; 64];
    // By index, as in texts' `unhex`: of what is written through a `zip` nothing is known behind the loop.
    for (k, answer) in answers.iter().enumerate() {
        lengths[k] = put_text(*answer, &mut room[32 * k..]);
    }
    lengths
}
