// Bytes of a string as one number, lowest byte first: the next eight, or those left. The compiler makes one load of eight.
#![tactic(auto)]

ghost use Rattle.std.specs.Prelude.{◌≡◌, ◌≤◌, length};
ghost use Rattle.lists.specs.Bytes.{from_bytes};
ghost use Rattle.keccak.specs.Strings as S;

// At most eight bytes.
fn number(bytes: &[u8]) -> u64
    requires { length bytes.now ≤ 8 }
    ensures { result ≡ from_bytes bytes.now }
{
    let mut eight = [0u8; 8];
    eight[..bytes.len()].copy_from_slice(bytes);
    u64::from_le_bytes(eight)
}

// The next eight bytes from `at` on, or those left.
pub fn word(s: &[u8], at: usize) -> u64
    requires { at ≤ length s.now }
    ensures { result ≡ S.word s.now at }
{
    if s.len() - at < 8 {
        return number(&s[at..]);
    }
    number(&s[at..at + 8])
}
