// Keys typed while locked, against the lock code: which count, and the longest beginning of the code that they end with.
ghost use Rattle.std.specs.Prelude.{◌≡◌, ◌∷◌, ◌≤◌, length, take};
ghost use Rattle.machine.specs.Lock as lock;
ghost use Rattle.machine.specs.Devices as device;
ghost use Rattle.state.specs.View.{public, view, code_of};

use lines::lines::cell;
use state::code::code_length;
use state::state::{CODE, POSITION, State};

// A byte that is no key of a code.
pub fn ignored(s: &State, x: u8) -> bool
    ensures { result ≡ device.ignored x (public s.now) }
{
    (x / 128 % 2 == 1) | ((x == cell(s, 0x16)) | (x == cell(s, 0x17)))
}

// The code's first k bytes end with its first n. Most that do not differ in the last byte already, which costs no call.
fn repeats(s: &State, k: usize, n: usize) -> bool
    requires { (n ≤ k) × (k ≤ length (code_of s.now)) × (k ≤ 16) }
    ensures { let code = code_of s.now in result ≡ lock.end_with (lock.begun code k) (take n code) }
{
    if 0 < n && s[CODE + (n - 1)] != s[CODE + (k - 1)] {
        return false;
    }
    s[CODE..CODE + k].ends_with(&s[CODE..CODE + n])
}

// The longest beginning of the code, of at most k bytes, that its first k bytes and then x end with. Searched from the longest down:
// that takes no memory, and most are ruled out by x alone.
fn fall_back(s: &State, x: u8, k: usize) -> usize
    requires { (k ≤ length (code_of s.now)) × (k ≤ 16) }
    ensures { (let code = code_of s.now in result ≡ lock.longest code k (x ∷ lock.begun code k)) × (result ≤ k) }
{
    for last in (0..k).rev() {
        if x == s[CODE + last] && repeats(s, k, last) {
            return last + 1;
        }
    }
    0
}

// The longest beginning of the code, the whole of it too, that the keys counted and then x end with.
pub fn reach(s: &State, x: u8) -> usize
    ensures { (let secret = (view s.now).secret in result ≡ lock.longest secret.code (length secret.code) (x ∷ lock.begun secret.code secret.position)) × (result ≤ 16) }
{
    let n = code_length(s);
    let position = s[POSITION];
    if n <= position {
        return fall_back(s, x, n as usize);
    }
    let k = position as usize;
    if x == s[CODE + k] {
        return k + 1;
    }
    fall_back(s, x, k)
}
