// The format of a version string: X.Y or X.Y.Z, each of digits. A state is a number, as in `next_version_state` of `specs/Version.antt`.
ghost use Rattle.std.specs.Prelude.{◌≡◌};
ghost use Rattle.typing.specs.Version.{is_digit, after_dot, after_digit, next_version_state, is_end, is_valid_version_format};

fn is_digit(b: u8) -> bool
    ensures { result ≡ is_digit b }
{
    if b < 48 {
        return false;
    }
    b < 58
}

// The state after a dot.
#[tactic(auto, unfolding(crate::specs::Version::after_dot))]
fn after_dot(state: u8) -> u8
    ensures { result ≡ after_dot state }
{
    match state {
        1 => 2,
        3 => 4,
        _ => 6,
    }
}

// The state after a digit.
#[tactic(auto, unfolding(crate::specs::Version::after_digit))]
fn after_digit(state: u8) -> u8
    ensures { result ≡ after_digit state }
{
    match state {
        0 | 1 => 1,
        2 | 3 => 3,
        4 | 5 => 5,
        _ => 6,
    }
}

fn next_state(state: u8, b: u8) -> u8
    ensures { result ≡ next_version_state state b }
{
    if b == b'.' {
        return after_dot(state);
    }
    if is_digit(b) {
        return after_digit(state);
    }
    6
}

fn is_end(state: u8) -> bool
    ensures { result ≡ is_end state }
{
    if state == 3 {
        return true;
    }
    state == 5
}

// Whether the bytes have the format.
pub fn is_valid_version_format(v: &[u8]) -> bool
    ensures { result ≡ is_valid_version_format v.now }
{
    let mut state: u8 = 0;
    for b in v {
        state = next_state(state, *b);
    }
    is_end(state)
}
